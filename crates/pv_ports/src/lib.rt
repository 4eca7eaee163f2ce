//! Where a program's octets come from and go to: a source that is read and a sink that is written to, each of
//! which counts its faults, so that a failure always has a cause outside the program.
#![tactic(auto)]

mod list_sink;
mod list_source;
mod plan;
mod port;
mod std_ports;

pub use list_sink::ListSink;
pub use list_source::ListSource;
pub use port::{Failed, Sink, Source, write_all};
pub use std_ports::{StdSink, StdSource};

#[cfg(test)]
mod tests {
    use super::*;
    use std::test::Fail;

    #[test]
    fn a_list_is_read_in_pieces(rt: HostRuntime) -> Result<(), Fail> {
        let alloc = rt.alloc();
        let bytes = vec![in alloc; 1u8, 2, 3, 4, 5]?;
        let mut source = ListSource::new(bytes, vec![in alloc; 1u64]?);
        let mut piece = [0u8; 2];
        assert_eq!(rt; source.read(&mut piece), Ok(2));
        assert_eq!(rt; piece, [1, 2]);
        assert_eq!(rt; source.read(&mut piece), Err(Failed));
        assert_eq!(rt; source.read(&mut piece), Ok(2));
        assert_eq!(rt; piece, [3, 4]);
        assert_eq!(rt; source.read(&mut piece), Ok(1));
        assert_eq!(rt; piece[0], 5);
        assert_eq!(rt; source.read(&mut piece), Ok(0));
        Ok(())
    }

    #[test]
    fn a_piece_is_written_again_after_a_fault(rt: HostRuntime) -> Result<(), Fail> {
        let alloc = rt.alloc();
        let mut sink = ListSink::new(alloc, vec![in alloc; 0u64]?);
        sink.reserve(3)?;
        assert_eq!(rt; write_all(&mut sink, &[7, 8]), Err(Failed));
        assert_eq!(rt; sink.as_slice(), [].as_slice());
        assert_eq!(rt; write_all(&mut sink, &[7, 8]), Ok(()));
        assert_eq!(rt; write_all(&mut sink, &[9, 10]), Err(Failed));
        assert_eq!(rt; sink.as_slice(), [7, 8, 9].as_slice());
        Ok(())
    }

    #[test]
    fn the_ports_over_std_move_octets(rt: HostRuntime) -> Result<(), Fail> {
        let mut source = StdSource::new([1u8, 2, 3].as_slice());
        let mut piece = [0u8; 2];
        assert_eq!(rt; source.read(&mut piece), Ok(2));
        assert_eq!(rt; piece, [1, 2]);
        let mut written = Vec::new(rt.alloc());
        assert_eq!(rt; write_all(&mut StdSink::new(&mut written), &piece), Ok(()));
        assert_eq!(rt; written.as_slice(), [1, 2].as_slice());
        Ok(())
    }

    #[test]
    fn the_error_has_a_text(rt: HostRuntime) -> Result<(), Fail> {
        let text = Failed.to_string(rt.alloc())?;
        assert_eq!(rt; text.as_str(), "the port failed");
        Ok(())
    }
}
