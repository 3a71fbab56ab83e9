use dsv_base::Bytes;

/// What a prefix stands for. The default namespace stands under the empty prefix.
#[derive(Debug, Drop)]
pub struct Bound {
    pub prefix: Bytes,
    pub space: Bytes,
}
