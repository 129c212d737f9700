// A header as the writer hands it over.
ghost use Rattle.std.specs.Prelude.{◌≤◌};

// So many bytes of the twelve are the header, and zeros follow it.
#[derive(Clone, Copy)]
pub struct Written {
    pub size: u32,
    pub bytes: [u8; 12],
    pub ghost few: { size ≤ 12 },
}
