/// How a random stream stands.
#[derive(Clone, Copy)]
pub enum Stream {
    /// No number was drawn since it was set to this value. At the beginning each stream is set to its own number.
    Set(u32),
    /// The number that it drew last.
    At(u32),
}
