// A receiver's node, and the paths to it from the source, each as the numbers of its links in order.
#[derive(Drop)]
pub struct Aim {
    pub node: u16,
    pub paths: Vec<Vec<u16>>,
}
