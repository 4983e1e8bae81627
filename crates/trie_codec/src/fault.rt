use thiserror::Error;

/// Why bytes are no node: the first fault from the left.
#[derive(Debug, Clone, Copy, PartialEq, Eq, Error)]
pub enum CodecFault {
    /// 1: the bytes end too early.
    #[error("the bytes end too early")]
    Short,
    /// 2: the first byte is no header, or the partial key has over 2,048 nibbles.
    #[error("no header of a node, or too long a partial key")]
    BadHeader,
    /// 3: the half before an odd partial key isn't 0.
    #[error("the half before an odd partial key isn't zero")]
    BadPadding,
    /// 4: a compact length is in a longer mode than it needs, or too large.
    #[error("a length in a longer mode than it needs, or too large")]
    BadLength,
    /// 5: a branch without a child, or with one child and no value.
    #[error("a branch with too few children")]
    BadBitmap,
    /// 6: a child of no bytes, of over 32, or of 1 to 31 that don't read as a leaf or branch.
    #[error("a child that is no hash and no node")]
    BadChild,
    /// 7: bytes after the node.
    #[error("bytes after the node")]
    Trailing,
}
