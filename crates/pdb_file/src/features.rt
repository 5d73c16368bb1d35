//! The features of a file, which stream 1 tells after the names of streams.

ghost use Rattle.std.specs.Prelude.{◌≡◌};
ghost use Rattle.pdb_base.specs.Answer.{Gives};
ghost use Rattle.pdb_file.specs.Features.{features_in, features_of, with_number};

use crate::fields::u32_in;
use crate::information::PDBInformation;
use pdb_base::Result;

/// The size of a number in bytes.
const NUMBER_SIZE: usize = 4;

/// The number of the format of Visual C++ 11, which ends the list.
const VC110: u32 = 20_091_201;

/// The number of the format of Visual C++ 14.
const VC140: u32 = 20_140_508;

/// The letters `NOTM`.
const NO_TYPE_MERGE: u32 = 0x4d54_4f4e;

/// The letters `MINI`.
const MINIMAL: u32 = 0x494e_494d;

/// The features that a file tells of itself. Each has a number in stream 1, as `PdbRaw_FeatureSig`
/// in LLVM's RawConstants.h has them.
#[derive(Clone, Copy, Debug, PartialEq, Eq)]
pub struct Features {
    /// The file has a table of ids, as linkers write since Visual C++ 11. The number is 20091201,
    /// and no other number is read after it.
    pub vc110: bool,

    /// The file has a table of ids, as linkers write since Visual C++ 14. The number is 20140508.
    pub vc140: bool,

    /// The types of the object files are not merged. The number is that of the letters `NOTM`.
    pub no_type_merge: bool,

    /// The debug information is minimal and refers to that of the object files, as linkers write
    /// with /DEBUG:FASTLINK. The number is that of the letters `MINI`.
    pub minimal: bool,
}

impl Features {
    /// Returns these features, and the one that has the number, if any has.
    fn with_number(self, number: u32) -> Features
        ensures { result ≡ with_number number self }
    {
        Features {
            vc110: number == VC110 || self.vc110,
            vc140: number == VC140 || self.vc140,
            no_type_merge: number == NO_TYPE_MERGE || self.no_type_merge,
            minimal: number == MINIMAL || self.minimal,
        }
    }

    /// Returns the features whose numbers are in some bytes.
    #[tactic(auto, unfolding(crate::specs::Features::features_in), using(crate::proofs::FeatureLemmas::told_from_next, crate::proofs::FeatureLemmas::told_at_last, crate::proofs::FeatureLemmas::told_at_end))]
    fn features_in(bytes: &[u8]) -> Features
        ensures { result ≡ features_in bytes.now }
    {
        let mut told = Features {
            vc110: false,
            vc140: false,
            no_type_merge: false,
            minimal: false,
        };
        for place in 0..bytes.len() / NUMBER_SIZE {
            let number = u32_in(bytes, NUMBER_SIZE * place);
            told = told.with_number(number);
            if number == VC110 {
                return told;
            }
        }
        told
    }
}

impl PDBInformation {
    /// Returns the features that the file tells of itself.
    ///
    /// After the map of stream names come `u32` numbers to the end of the stream. Those of the four
    /// features count, up to and with the one of Visual C++ 11, and other numbers are passed over,
    /// as are the bytes of an incomplete last number.
    ///
    /// # Errors
    /// Fails with `UnexpectedEof` if the stream ends before the entries of the map do. Names are not
    /// looked at.
    #[tactic(auto, unfolding(crate::specs::Features::features_of))]
    pub fn features(&self) -> Result<Features>
        ensures { Gives (λ features. features) result (features_of self.now) }
    {
        let map = self.name_map()?;
        Ok(Features::features_in(map.behind))
    }
}
