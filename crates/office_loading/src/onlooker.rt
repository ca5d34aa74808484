//! Who looks on while work on a store takes long.

/// What is done to interchanges, visits and lists by work that takes long.
#[derive(Clone, Copy)]
pub enum Step {
    /// They are copied into another store.
    Copying,
    /// They are compared with those of an archive.
    Comparing,
    /// They are deleted.
    Deleting,
}

/// Who looks on while work on a store takes long. Nothing that it does changes what is done.
pub trait Onlooker {
    /// A step was done to so many more interchanges or visits, or to lists with their lines.
    fn passed(&self, step: Step, count: usize);
}

/// Nobody looks on.
#[derive(Clone, Copy)]
pub struct Nobody;

impl Onlooker for Nobody {
    fn passed(&self, _step: Step, _count: usize) {}
}
