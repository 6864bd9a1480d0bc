/// An open list or map.
#[derive(Clone, Copy)]
pub struct Level {
    pub is_map: bool,
    /// How many parts come behind the one that comes next, a map's keys and values counted.
    pub due: usize,
}
