// A job at a stage, with the SR-1 that it found. It is no `Drop`: it ends by a seal, once it is checked, or by giving it up.
pub struct Job<Stage> {
    pub(crate) kept: u8,
    pub(crate) stage: Stage,
}

// The stage of a job that was opened.
#[derive(Clone, Copy)]
pub struct Unchecked;

// The stage of one whose page was read back as it should be.
#[derive(Clone, Copy)]
pub struct ReadBack;

pub type Opened = Job<Unchecked>;

pub type Checked = Job<ReadBack>;
