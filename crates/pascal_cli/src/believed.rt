//! The sum of docs/TRUSTED.md, which lists what has to be believed. Written by tools/trusted.

/// The sum.
pub(crate) const BELIEVED: &str =
    "3583625a497ef6bbd92a9e61451e6c1e6425ae191acdceab372df5a7ec926d5d";
