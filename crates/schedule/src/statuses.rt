// "its status: unborn, ready, held, waiting, ended"
pub const UNBORN: u8 = 0;

pub const READY: u8 = 1;

pub const HELD: u8 = 2;

pub const WAITING: u8 = 3;

pub const ENDED: u8 = 4;
