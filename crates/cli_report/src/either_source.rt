//! A source that is one of two.

ghost use Rattle.cli_report.specs.Sources.{by_source};

use byte_io::{DeviceFault, Source};

/// A source of one of two types, which gives what that one gives.
#[derive(Drop)]
pub enum EitherSource<S: Source, T: Source> {
    /// A source of the first type.
    First(S),
    /// A source of the second type.
    Second(T),
}

impl<S: Source, T: Source> Source for EitherSource<S, T> {
    ghost left = { λ s. by_source S.left T.left s };

    ghost failures = { λ s. by_source S.failures T.failures s };

    ghost room = { λ s. by_source S.room T.room s };

    fn read(&mut self, piece: &mut [u8]) -> Result<usize, DeviceFault> {
        match self {
            EitherSource::First(source) => source.read(piece),
            EitherSource::Second(source) => source.read(piece),
        }
    }
}
