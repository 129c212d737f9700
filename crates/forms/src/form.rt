// The numbers of a header's form, and what they are to one another.
ghost use Rattle.forms.specs.Numbers.{IsForm, IsSmall};

// The bits of a port and of a queue, the bytes of the credit on offer; the bytes of the front, the zeros to spare at its end, and the bytes
// of the header.
#[derive(Clone, Copy)]
pub struct HeaderForm {
    pub port: u32,
    pub queue: u32,
    pub offer: u32,
    pub front: u32,
    pub spare: u32,
    pub size: u32,
    pub ghost formed: { IsForm port queue offer front spare size },
    pub ghost small: { IsSmall port queue offer front spare size },
}
