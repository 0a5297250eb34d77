// The bytes of an array as a caller hands them over.

// Mask planes, outermost first, before values, before offsets.
#[derive(Clone, Copy, Debug)]
pub struct ArrayBytes<'a> {
    pub masks: &'a [u8],
    pub values: &'a [u8],
    pub offsets: &'a [u64],
}
