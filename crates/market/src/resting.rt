/// An order that rests, with the lots that are left of it.
#[derive(Clone, Copy, PartialEq, Eq, Debug)]
pub struct Resting {
    pub member: u32,
    pub order: u32,
    pub lots: u32,
}
