/// What a worker passes before each chunk of a region's iterations. It says nothing of content.
pub trait Gate: Sync {
    /// The worker with this number, from 0, is about to run the chunk with this number, from 0.
    fn enter(&self, worker: u32, chunk: u64);
}

/// A gate that lets every worker pass at once.
#[derive(Clone, Copy)]
pub struct OpenGate;

impl Gate for OpenGate {
    fn enter(&self, _worker: u32, _chunk: u64) {}
}
