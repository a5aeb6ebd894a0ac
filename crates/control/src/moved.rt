use rules::Work;

// What a clock that is no fault does to the cells, and the lanes that it drives.
#[derive(Clone, Copy)]
pub struct Moved {
    pub work: Work,
    pub lanes: u8,
}
