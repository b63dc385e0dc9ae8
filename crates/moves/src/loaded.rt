// An image whose moves are found: its geometry is handled, and it is of exact size.
ghost use Rattle.std.specs.Prelude.{◌≡◌, ◌&&◌, eqb, length, is_some, IfSome};
ghost use Rattle.moves.specs.Handled.{sizes_handled, addresses_handled, handles, Handled};
ghost use Rattle.parts.specs.Sizes.{image_size};

use image::Header;
use parts::Geometry;

#[derive(Clone, Copy)]
pub(crate) struct Loaded<'a> {
    pub(crate) geometry: Geometry,
    pub(crate) header: Header,
    pub(crate) bytes: &'a [u8],
    ghost handled: { Handled geometry },
    ghost exact: { length bytes.now ≡ image_size geometry },
}

fn sizes_handled(g: Geometry) -> bool
    ensures { result ≡ sizes_handled g }
{
    let p = g.part;
    (4..=1024).contains(&p.row_bytes)
        && p.row_bytes % 4 == 0
        && (32..=4096).contains(&p.rows_per_macro)
        && g.macros <= 16
}

fn addresses_handled(g: Geometry) -> bool
    ensures { result ≡ addresses_handled g }
{
    let p = g.part;
    p.sysreq <= 0x7FFFFFFF && p.locks <= 0x7FFFFFFF && p.locks_step <= 0xFFFFFF
}

impl<'a> Loaded<'a> {
    pub(crate) fn new(geometry: Geometry, header: Header, bytes: &'a [u8]) -> Option<Loaded<'a>>
        ensures tested { is_some result ≡ (handles geometry && eqb (length bytes.now) (image_size geometry)) }
        ensures kept { IfSome result (λ l. (l.geometry ≡ geometry) × (l.header ≡ header) × (l.bytes.now ≡ bytes.now)) }
    {
        if sizes_handled(geometry)
            && addresses_handled(geometry)
            && bytes.len() == parts::image_size(geometry)
        {
            Some(Loaded {
                geometry,
                header,
                bytes,
            })
        } else {
            None
        }
    }
}
