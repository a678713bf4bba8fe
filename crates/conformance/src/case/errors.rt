use super::{Argument, Case};
use crate::tables::{LAYERS, LEN_SOURCES, VALUE_TYPES};
use etherparse::LenSource;
use etherparse::err::{
    Layer, LenError, SliceWriteSpaceError, ValueTooBigError, ValueType, ipv4, ipv6,
};
use std::fmt::{Debug, Display};
use std::hash::Hash;
use std::str::FromStr;

impl Argument for Layer {
    fn read(case: &mut Case) -> Layer {
        case.named(&LAYERS, Layer::LinuxSllHeader)
    }
}

impl Argument for ValueType {
    fn read(case: &mut Case) -> ValueType {
        case.named(&VALUE_TYPES, ValueType::VlanId)
    }
}

/// `required len LENSOURCE LAYER offset`
impl Argument for LenError {
    fn read(case: &mut Case) -> LenError {
        LenError {
            required_len: case.number(),
            len: case.number(),
            len_source: case.named(&LEN_SOURCES, LenSource::Slice),
            layer: case.read(),
            layer_start_offset: case.number(),
        }
    }
}

/// `required len LAYER offset`
impl Argument for SliceWriteSpaceError {
    fn read(case: &mut Case) -> SliceWriteSpaceError {
        SliceWriteSpaceError {
            required_len: case.number(),
            len: case.number(),
            layer: case.read(),
            layer_start_offset: case.number(),
        }
    }
}

/// `len` and a `LenError`, `version V` or `ihl I`
impl Argument for ipv4::HeaderSliceError {
    fn read(case: &mut Case) -> ipv4::HeaderSliceError {
        match case.word() {
            "len" => ipv4::HeaderSliceError::Len(case.read()),
            kind => ipv4::HeaderSliceError::Content(case.ipv4_content(kind)),
        }
    }
}

/// `len` and a `LenError`, or `version V`
impl Argument for ipv6::HeaderSliceError {
    fn read(case: &mut Case) -> ipv6::HeaderSliceError {
        match case.word() {
            "len" => ipv6::HeaderSliceError::Len(case.read()),
            kind => ipv6::HeaderSliceError::Content(case.ipv6_content(kind)),
        }
    }
}

/// `len` and a `LenError`, or `too_many limit next offset`
impl Argument for ipv6::ChainError {
    fn read(case: &mut Case) -> ipv6::ChainError {
        let kind = case.word();
        if kind == "len" {
            return ipv6::ChainError::Len(case.read());
        }
        if kind != "too_many" {
            case.refuse();
        }
        ipv6::ChainError::TooMany {
            limit: case.number(),
            next_header: case.number(),
            layer_start_offset: case.number(),
        }
    }
}

/// `actual max_allowed VALUETYPE`
impl<T> Argument for ValueTooBigError<T>
where
    T: FromStr + Default + Clone + Display + Debug + Eq + Hash + Drop,
    T::Err: Drop,
{
    fn read(case: &mut Case) -> ValueTooBigError<T> {
        ValueTooBigError {
            actual: case.number(),
            max_allowed: case.number(),
            value_type: case.read(),
        }
    }
}

impl Case<'_> {
    /// The IPv4 `HeaderError` of a kind, `version` or `ihl`, by its number.
    pub fn ipv4_content(&mut self, kind: &str) -> ipv4::HeaderError {
        if kind == "ihl" {
            return ipv4::HeaderError::HeaderLengthSmallerThanHeader { ihl: self.number() };
        }
        if kind != "version" {
            self.refuse();
        }
        ipv4::HeaderError::UnexpectedVersion {
            version_number: self.number(),
        }
    }

    /// The IPv6 `HeaderError` of a kind, which is `version`, by its number.
    pub fn ipv6_content(&mut self, kind: &str) -> ipv6::HeaderError {
        if kind != "version" {
            self.refuse();
        }
        ipv6::HeaderError::UnexpectedVersion {
            version_number: self.number(),
        }
    }
}
