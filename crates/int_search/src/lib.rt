//! The two integer vectors at which a form is least, found among all integer vectors.
//!
//! The search takes the entries of a vector from the last to the first and leaves out each suffix whose lower sum is past
//! the second best value so far. It answers in the form's own coordinates. `plain_best` searches in them as well, and
//! `two_best` first in decorrelated ones (`decorrelate`), where a map gives the vectors of the answer.
//!
//! `two_best` finds the two integer vectors at which an integer form is least. An
//! answer has the least of all integer vectors, of whole numbers of any size, by the form's value and then by entries
//! in order, the least of all others, their values, and only entries below 2^30 in size (clause `found`). An answer
//! keeps the budget (`visits`): the suffixes whose lower sum is at most 2^60 times the second value are no more than the
//! budget, in the form's own coordinates or in those of the reduction, and each depth-first search visits all of these,
//! so a search that never gives up is refused. The search says that its budget is spent only where the plain count of the
//! form is over it (`spent`), and that something is too wide only where a suffix of that count has an entry of 2^30
//! or more in size or the greater value of the rounded point and its neighbour is 2^62 or more (`overwidth`). Such a
//! suffix is an end of one of these two points, or the search comes to it within its budget: an end of a suffix is
//! visited before it, and of two entries the nearer to the centre comes first, so of the suffixes before it fewer than
//! the budget are within the second value. Where both could be said, the budget is asked first. Where the form has a reduced count that is at most the budget, it answers (`reduced`): it searches in the coordinates of
//! `reduce` first, and where that ends without an answer, in the form's own ones with the same budget. `plain_best`
//! is the second search alone, with the first four clauses, `visits` in the form's own coordinates. No call takes
//! memory.
//!
//! How a search ends is said exactly (`end`), without the search (`VisitedSuffixes`): it visits each suffix that isn't left out,
//! where a suffix is left out if two different full vectors that come before it have values so far below its lower sum. It
//! answers exactly where these suffixes are no more than the budget and none is too large; else it is spent where nothing that
//! comes within the budget is too large, and too wide where something is. `two_best` answers exactly where one of its two
//! searches does. So a form has one end with each budget (`one_end_law`), and a greater budget never loses an answer
//! (`more_visits_law`). The other clauses on budgets follow from this one (`CountLaws`).
//!
//! The engine takes a map to the coordinates of the answer, and `plain_best` gives it the identity.
//!
//! `coordinates::transformed` gives exactly the form in the coordinates of a map, with the matrix Mᵀ·p·M, where 1 stands for
//! the constant, and the same h; it is refused exactly where an entry of this matrix is 2^52 or more in size. At each vector
//! the new form has the value that the old one has at the vector's image (`value_law`).
//!
//! A suffix is the list of a vector's entries from one place on. Its lower sum is a lower bound of 2^60 times the form's
//! value at each vector that ends with it, so a search that takes the entries from the last to the first can leave out a
//! suffix whose lower sum is past the best values that it has met.
//!
//! `stack::Stack` is seen in contracts as the list of its levels with the latest first.
//!
//! `specs/` has what the search promises by: lower sums (`Suffixes`), the order of vectors and the two least (`Order`),
//! the plain count (`PlainCount`), which suffix comes first (`VisitOrder`), what is visited (`VisitedSuffixes`), what levels leave open (`Levels`), what a search keeps from turn to turn (`Search`).
//! `proofs/` has their laws for every form whose lower sums stay below its values (`IsSearchable`): `TraceLaws` that the walk visits exactly what is visited by definition.
#![tactic(auto)]

mod answer;
mod best;
mod coordinates;
mod halves;
mod images;
mod laws;
mod orders;
mod points;
mod products;
mod reduced;
mod rests;
mod search;
mod stack;
mod steps;
mod values;
mod walk;

pub use answer::{SearchFault, TwoBest};
pub use laws::{more_visits_law, one_end_law, value_law};
pub use reduced::two_best;
pub use search::plain_best;
