// An image as it is handed to a call.
use crate::Header;
use parts::Geometry;

// The part with its macros, what is known beside the bytes, and the bytes as they are lent.
#[derive(Clone, Copy)]
pub struct Image<'a> {
    pub geometry: Geometry,
    pub header: Header,
    pub bytes: &'a [u8],
}
