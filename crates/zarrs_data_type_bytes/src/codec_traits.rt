//! What codecs ask of a data type: for each codec a trait, and a struct that implements it.

pub mod bitround;
pub mod bytes;
pub mod fixedscaleoffset;
pub mod packbits;
pub mod pcodec;
pub mod zfp;
