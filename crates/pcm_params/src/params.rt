//! The parameters of a stream.

/// The parameters of a stream that is to be opened (`xensnd_open_req`).
#[derive(Clone, Copy, Debug, PartialEq, Eq)]
pub struct Params {
    /// Frames in a second.
    pub pcm_rate: u32,
    /// The number of the samples' format.
    pub pcm_format: u8,
    /// Samples in a frame.
    pub pcm_channels: u8,
    /// The size of the buffer in octets.
    pub buffer_sz: u32,
    /// The grant of the first page of the directory, which lists the grants of the buffer's pages.
    pub gref_directory: u32,
    /// Octets between two position events, or 0 for none.
    pub period_sz: u32,
}
