//! The parameter sets of one-time and of tree signatures over SHA-256 with 32 bytes (RFC 8554,
//! sections 4.1 and 5.1), and the levels of keys.
ghost use Rattle.std.specs.Prelude.{◌≡◌};
ghost use Rattle.vo_spec.specs.OtsSets.{ots_of, ots_code_of, width_of, count_of, shift_of, ots_signature_len};
ghost use Rattle.vo_spec.specs.LmsSets.{lms_of, lms_code_of, height_of};

/// An LM-OTS parameter set, named by its width in bits.
#[derive(Clone, Copy, PartialEq, Eq, Debug)]
pub enum OtsType {
    W1,
    W2,
    W4,
    W8,
}

impl OtsType {
    /// The set with this typecode: Some exactly for 1 to 4.
    pub fn of(code: u32) -> Option<OtsType>
        ensures { result ≡ ots_of code }
    {
        match code {
            1 => Some(OtsType::W1),
            2 => Some(OtsType::W2),
            3 => Some(OtsType::W4),
            4 => Some(OtsType::W8),
            _ => None,
        }
    }

    /// The set's typecode.
    pub fn code(self) -> u32
        ensures { result ≡ ots_code_of self }
    {
        match self {
            OtsType::W1 => 1,
            OtsType::W2 => 2,
            OtsType::W4 => 3,
            OtsType::W8 => 4,
        }
    }

    /// The width w of a digit, in bits.
    pub fn width(self) -> u32
        ensures { result ≡ width_of self }
    {
        match self {
            OtsType::W1 => 1,
            OtsType::W2 => 2,
            OtsType::W4 => 4,
            OtsType::W8 => 8,
        }
    }

    /// The number p of chains.
    pub fn count(self) -> u16
        ensures { result ≡ count_of self }
    {
        match self {
            OtsType::W1 => 265,
            OtsType::W2 => 133,
            OtsType::W4 => 67,
            OtsType::W8 => 34,
        }
    }

    /// The number ls of bits by which the checksum is shifted left.
    pub fn shift(self) -> u32
        ensures { result ≡ shift_of self }
    {
        match self {
            OtsType::W1 => 7,
            OtsType::W2 => 6,
            OtsType::W4 => 4,
            OtsType::W8 => 0,
        }
    }

    /// The length of a one-time signature, in bytes.
    pub fn signature_len(self) -> usize
        ensures { result ≡ ots_signature_len self }
    {
        36 + 32 * self.count() as usize
    }
}

/// How many trees stand above each other where a key signs: one, or an upper one whose leaves sign
/// the keys of lower ones (RFC 8554, section 6).
#[derive(Clone, Copy, PartialEq, Eq, Debug)]
pub enum Levels {
    One,
    Two,
}

/// An LMS parameter set, named by the height of its tree.
#[derive(Clone, Copy, PartialEq, Eq, Debug)]
pub enum LmsType {
    H5,
    H10,
    H15,
    H20,
    H25,
}

impl LmsType {
    /// The set with this typecode: Some exactly for 5 to 9.
    pub fn of(code: u32) -> Option<LmsType>
        ensures { result ≡ lms_of code }
    {
        match code {
            5 => Some(LmsType::H5),
            6 => Some(LmsType::H10),
            7 => Some(LmsType::H15),
            8 => Some(LmsType::H20),
            9 => Some(LmsType::H25),
            _ => None,
        }
    }

    /// The set's typecode.
    pub fn code(self) -> u32
        ensures { result ≡ lms_code_of self }
    {
        match self {
            LmsType::H5 => 5,
            LmsType::H10 => 6,
            LmsType::H15 => 7,
            LmsType::H20 => 8,
            LmsType::H25 => 9,
        }
    }

    /// The height of the tree, which has two to that power leaves.
    pub fn height(self) -> u32
        ensures { result ≡ height_of self }
    {
        match self {
            LmsType::H5 => 5,
            LmsType::H10 => 10,
            LmsType::H15 => 15,
            LmsType::H20 => 20,
            LmsType::H25 => 25,
        }
    }
}
