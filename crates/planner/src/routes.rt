// What is found for the receivers. A cut is an answer as paths are, so this is no `Result`.
use coding::Aim;

#[derive(Drop)]
pub enum Routes {
    // each receiver with its paths, in order
    Paths(Vec<Aim>),
    // the first receiver with a cut, and for each node whether it is on the source's side
    Cut { receiver: u16, side: [bool; 256] },
}
