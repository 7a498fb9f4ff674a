// Who watches what devices read and write.

/// Who is told of what devices read and write, by their workers at once. No contract says what it makes of that.
pub trait Traffic {
    /// So many bytes were read.
    fn add_read(&self, bytes: usize);

    /// A read failed.
    fn add_failed_read(&self);

    /// So many bytes were written.
    fn add_written(&self, bytes: usize);
}
