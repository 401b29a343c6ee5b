//! How far an adapter is started.

/// How far an adapter is started.
#[derive(Clone, Copy, Debug, PartialEq, Eq)]
pub enum Phase {
    /// Before ENABLE_HCA, and after DISABLE_HCA.
    Off,
    /// Between ENABLE_HCA and INIT_HCA, and after TEARDOWN_HCA.
    Enabled,
    /// Between INIT_HCA and TEARDOWN_HCA.
    Running,
}
