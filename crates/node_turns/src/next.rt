/// What an element does next: it reads its source, takes a packet, puts one on an output, or is done.
#[derive(Clone, Copy)]
pub enum Next {
    Read,
    Take,
    Put(u32),
    Done,
}
