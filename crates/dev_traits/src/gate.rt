/// What a lane passes once its work is prepared, right before the turn that follows.
pub trait Gate: Sync {
    /// Lets the lane's job on, sooner or later. It answers nothing and changes no outcome.
    fn pass(&self, lane: u32, job: u32);
}
