// The parts of a packet as fifteen words, or with a pad count as sixteen: where each stands. Inside this crate parts are read where they are written: fifteen numbers at hand are more than a
// processor's registers hold.

// The type.
pub const KIND: usize = 0;

// C, T and TSM, the lowest bits of their words.
pub const CLASSED: usize = 1;

pub const TRAILED: usize = 2;

pub const TSM: usize = 3;

pub const TSI: usize = 4;

pub const TSF: usize = 5;

pub const COUNT: usize = 6;

pub const IDENTIFIER: usize = 7;

// The class: OUI, information class and packet class.
pub const OUI: usize = 8;

pub const INFORMATION: usize = 9;

pub const CODE: usize = 10;

pub const SECONDS: usize = 11;

// The fraction, high word first.
pub const HIGH: usize = 12;

pub const LOW: usize = 13;

pub const TRAILER: usize = 14;

pub const PAD: usize = 15;
