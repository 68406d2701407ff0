// Command codes of the cluster.
#[derive(Clone, Copy, PartialEq, Eq)]
pub enum CommandId {
    SetpointRaiseLower = 0,
}
