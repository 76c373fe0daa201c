// Numbers of things and of processes. "As in document 000, a reference says which it is: quantum, channel or channel
// end, and one never stands for another."
#[derive(Clone, Copy)]
pub struct QubitNo(pub u16);

#[derive(Clone, Copy)]
pub struct ChannelNo(pub u16);

// The channel's number, and the side, 0 or 1.
#[derive(Clone, Copy)]
pub struct EndNo(pub u16, pub u16);

#[derive(Clone, Copy)]
pub struct ProcessNo(pub u16);
