// No code: the round trips of an image, over what loading and writing promise. See specs/RoundTrips.antt.
#![tactic(auto)]
