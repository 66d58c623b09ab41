// The box for programs in other languages, as a static library: functions on numbers and lent runs, declared in
// include/ashthulgo.h. A run is lent as a pointer and a length. Each function returns its code; the other parts of the
// answer are written to places that the caller lends, 0 for a part that the answer doesn't carry. Every function is
// total.
#![tactic(auto)]

mod accounts;
mod calls;
mod frames;
mod images;
mod receptions;
