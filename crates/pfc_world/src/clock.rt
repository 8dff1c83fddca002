/// Tells moments, in seconds since 1970. Nothing is said of what it tells, not even that it goes forward.
pub trait Clock: Send + Drop {
    fn now(&mut self) -> u64;
}
