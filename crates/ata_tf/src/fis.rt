//! What the frames have in common (Serial ATA 3.x, FIS types).

// Byte 0 of each frame, its type.
pub const HOST_TO_DEVICE: u8 = 0x27;

pub const DEVICE_TO_HOST: u8 = 0x34;

pub const SET_DEVICE_BITS: u8 = 0xa1;

/// C, in byte 1: the frame gives a command.
pub const COMMAND: u8 = 0x80;

/// I, in byte 1: the drive asks for an interrupt.
pub const INTERRUPT: u8 = 0x40;
