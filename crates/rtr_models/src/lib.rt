// RTR's codes and PDU values, in the order of the Rust's src/models/rpki/rtr.rs. No function here has a condition or writes lent
// memory, and each promise names its one result.
#![tactic(auto)]

ghost use Rattle.std.specs.Prelude.{◌≡◌};
ghost use Rattle.rtr_models.specs.Codes.{version_found, version_number, type_found, type_number, code_found, code_number};
ghost use Rattle.rtr_models.specs.Parts.{inside, key_inside, PartOf, part_number, number_if};
ghost use Rattle.rtr_models.specs.Values.{announces, withdraws, seconds_or, type_of, version_of};

// ---- Codes

// Version 0 is RFC 6810, version 1 is RFC 8210.
#[derive(Clone, Copy, PartialEq, Eq)]
pub enum RtrProtocolVersion {
    V0,
    V1,
}

impl RtrProtocolVersion {
    pub fn from_u8(value: u8) -> Option<RtrProtocolVersion>
        ensures { result ≡ version_found value }
    {
        match value {
            0 => Some(RtrProtocolVersion::V0),
            1 => Some(RtrProtocolVersion::V1),
            _ => None,
        }
    }

    pub fn to_u8(self) -> u8
        ensures { result ≡ version_number self }
    {
        match self {
            RtrProtocolVersion::V0 => 0,
            RtrProtocolVersion::V1 => 1,
        }
    }
}

// By hand, so that the promise stands here: a derived one would promise whatever variant is marked.
impl Default for RtrProtocolVersion {
    ghost use Rattle.rtr_models.specs.declared.RtrProtocolVersion.{RtrProtocolVersion};

    ghost is_default = { λ version. version ≡ RtrProtocolVersion.V1 };

    fn default() -> Self {
        RtrProtocolVersion::V1
    }
}

// What kind of PDU it is; there is no type 5.
#[derive(Clone, Copy, PartialEq, Eq)]
pub enum RtrPduType {
    SerialNotify,
    SerialQuery,
    ResetQuery,
    CacheResponse,
    IPv4Prefix,
    IPv6Prefix,
    EndOfData,
    CacheReset,
    RouterKey,
    ErrorReport,
}

impl RtrPduType {
    pub fn from_u8(value: u8) -> Option<RtrPduType>
        ensures { result ≡ type_found value }
    {
        match value {
            0 => Some(RtrPduType::SerialNotify),
            1 => Some(RtrPduType::SerialQuery),
            2 => Some(RtrPduType::ResetQuery),
            3 => Some(RtrPduType::CacheResponse),
            4 => Some(RtrPduType::IPv4Prefix),
            6 => Some(RtrPduType::IPv6Prefix),
            7 => Some(RtrPduType::EndOfData),
            8 => Some(RtrPduType::CacheReset),
            9 => Some(RtrPduType::RouterKey),
            10 => Some(RtrPduType::ErrorReport),
            _ => None,
        }
    }

    pub fn to_u8(self) -> u8
        ensures { result ≡ type_number self }
    {
        match self {
            RtrPduType::SerialNotify => 0,
            RtrPduType::SerialQuery => 1,
            RtrPduType::ResetQuery => 2,
            RtrPduType::CacheResponse => 3,
            RtrPduType::IPv4Prefix => 4,
            RtrPduType::IPv6Prefix => 6,
            RtrPduType::EndOfData => 7,
            RtrPduType::CacheReset => 8,
            RtrPduType::RouterKey => 9,
            RtrPduType::ErrorReport => 10,
        }
    }
}

// Why an Error Report was sent.
#[derive(Clone, Copy, PartialEq, Eq)]
pub enum RtrErrorCode {
    CorruptData,
    InternalError,
    NoDataAvailable,
    InvalidRequest,
    UnsupportedProtocolVersion,
    UnsupportedPduType,
    WithdrawalOfUnknownRecord,
    DuplicateAnnouncementReceived,
    UnexpectedProtocolVersion,
}

impl RtrErrorCode {
    pub fn from_u16(value: u16) -> Option<RtrErrorCode>
        ensures { result ≡ code_found value }
    {
        match value {
            0 => Some(RtrErrorCode::CorruptData),
            1 => Some(RtrErrorCode::InternalError),
            2 => Some(RtrErrorCode::NoDataAvailable),
            3 => Some(RtrErrorCode::InvalidRequest),
            4 => Some(RtrErrorCode::UnsupportedProtocolVersion),
            5 => Some(RtrErrorCode::UnsupportedPduType),
            6 => Some(RtrErrorCode::WithdrawalOfUnknownRecord),
            7 => Some(RtrErrorCode::DuplicateAnnouncementReceived),
            8 => Some(RtrErrorCode::UnexpectedProtocolVersion),
            _ => None,
        }
    }

    pub fn to_u16(self) -> u16
        ensures { result ≡ code_number self }
    {
        match self {
            RtrErrorCode::CorruptData => 0,
            RtrErrorCode::InternalError => 1,
            RtrErrorCode::NoDataAvailable => 2,
            RtrErrorCode::InvalidRequest => 3,
            RtrErrorCode::UnsupportedProtocolVersion => 4,
            RtrErrorCode::UnsupportedPduType => 5,
            RtrErrorCode::WithdrawalOfUnknownRecord => 6,
            RtrErrorCode::DuplicateAnnouncementReceived => 7,
            RtrErrorCode::UnexpectedProtocolVersion => 8,
        }
    }
}

// ---- What a PDU's fields are made of

// A payload by place: len bytes from start, counted from the first byte of the PDU that was read.
#[derive(Clone, Copy, PartialEq, Eq)]
pub struct Place {
    pub start: usize,
    pub len: usize,
}

// Refusal 11: a payload does not lie in the slice that it is asked of.
#[derive(Clone, Copy, PartialEq, Eq)]
pub struct PlaceOutside;

impl Place {
    // Compared without a sum, which could wrap.
    fn is_inside(self, input: &[u8]) -> bool
        ensures { result ≡ inside self input.now }
    {
        let start = self.start;
        let len = self.len;
        if start <= input.len() {
            return len <= input.len() - start;
        }
        false
    }

    pub fn answer(self, input: &[u8]) -> Result<(), PlaceOutside>
        ensures { part_number result ≡ number_if (inside self input.now) }
    {
        if self.is_inside(input) {
            return Ok(());
        }
        Err(PlaceOutside)
    }

    // That very part of the slice, or an empty one where it is refused.
    pub fn part(self, input: &[u8]) -> &[u8]
        ensures { PartOf (inside self input.now) self input.entry result }
    {
        let start = self.start;
        let len = self.len;
        if self.is_inside(input) {
            return &input[start..start + len];
        }
        &input[..0]
    }

    // A key identifier's place must be 20 long besides.
    pub fn key_answer(self, input: &[u8]) -> Result<(), PlaceOutside>
        ensures { part_number result ≡ number_if (key_inside self input.now) }
    {
        let len = self.len;
        if len == 20 {
            return self.answer(input);
        }
        Err(PlaceOutside)
    }

    pub fn key_part(self, input: &[u8]) -> &[u8]
        ensures { PartOf (key_inside self input.now) self input.entry result }
    {
        let len = self.len;
        if len == 20 {
            return self.part(input);
        }
        &input[..0]
    }
}

// An IPv6 address as four numbers, the leading 32 bits first.
#[derive(Clone, Copy, PartialEq, Eq)]
pub struct Ipv6Addr {
    pub w0: u32,
    pub w1: u32,
    pub w2: u32,
    pub w3: u32,
}

// ---- PDU values

// Cache to router: there is new data to ask for.
#[derive(Clone, Copy)]
pub struct RtrSerialNotify {
    pub version: RtrProtocolVersion,
    pub session_id: u16,
    pub serial_number: u32,
}

// Router to cache: what changed since this serial.
#[derive(Clone, Copy)]
pub struct RtrSerialQuery {
    pub version: RtrProtocolVersion,
    pub session_id: u16,
    pub serial_number: u32,
}

impl RtrSerialQuery {
    pub fn new(version: RtrProtocolVersion, session_id: u16, serial_number: u32) -> Self
        ensures { result ≡ record { version = version; session_id = session_id; serial_number = serial_number } }
    {
        Self {
            version,
            session_id,
            serial_number,
        }
    }
}

// Router to cache: the whole table.
#[derive(Clone, Copy)]
pub struct RtrResetQuery {
    pub version: RtrProtocolVersion,
}

impl RtrResetQuery {
    pub fn new(version: RtrProtocolVersion) -> Self
        ensures { result ≡ record { version = version } }
    {
        Self { version }
    }

    pub fn new_v1() -> Self
        ensures { result ≡ record { version = RtrProtocolVersion.V1 } }
    {
        Self::new(RtrProtocolVersion::V1)
    }

    pub fn new_v0() -> Self
        ensures { result ≡ record { version = RtrProtocolVersion.V0 } }
    {
        Self::new(RtrProtocolVersion::V0)
    }
}

impl Default for RtrResetQuery {
    ghost use Rattle.rtr_models.specs.declared.RtrProtocolVersion.{RtrProtocolVersion};

    ghost is_default = { λ query. query ≡ record { version = RtrProtocolVersion.V1 } };

    fn default() -> Self {
        Self::new_v1()
    }
}

// Cache to router: data follows, up to an End of Data.
#[derive(Clone, Copy)]
pub struct RtrCacheResponse {
    pub version: RtrProtocolVersion,
    pub session_id: u16,
}

// Cache to router: one IPv4 prefix and the network that may announce it.
#[derive(Clone, Copy)]
pub struct RtrIPv4Prefix {
    pub version: RtrProtocolVersion,
    pub flags: u8,
    pub prefix_length: u8,
    pub max_length: u8,
    pub prefix: u32,
    pub asn: u32,
}

impl RtrIPv4Prefix {
    pub fn is_announcement(self) -> bool
        ensures { result ≡ announces self.flags }
    {
        self.flags % 2 == 1
    }

    pub fn is_withdrawal(self) -> bool
        ensures { result ≡ withdraws self.flags }
    {
        self.flags % 2 == 0
    }
}

// Cache to router: the same for IPv6.
#[derive(Clone, Copy)]
pub struct RtrIPv6Prefix {
    pub version: RtrProtocolVersion,
    pub flags: u8,
    pub prefix_length: u8,
    pub max_length: u8,
    pub prefix: Ipv6Addr,
    pub asn: u32,
}

impl RtrIPv6Prefix {
    pub fn is_announcement(self) -> bool
        ensures { result ≡ announces self.flags }
    {
        self.flags % 2 == 1
    }

    pub fn is_withdrawal(self) -> bool
        ensures { result ≡ withdraws self.flags }
    {
        self.flags % 2 == 0
    }
}

// Cache to router: the data is whole, up to this serial; version 1 adds the intervals.
#[derive(Clone, Copy)]
pub struct RtrEndOfData {
    pub version: RtrProtocolVersion,
    pub session_id: u16,
    pub serial_number: u32,
    pub refresh_interval: Option<u32>,
    pub retry_interval: Option<u32>,
    pub expire_interval: Option<u32>,
}

impl RtrEndOfData {
    // RFC 8210, section 6: one hour, ten minutes, two hours.
    pub const DEFAULT_REFRESH: u32 = 3600;

    pub const DEFAULT_RETRY: u32 = 600;

    pub const DEFAULT_EXPIRE: u32 = 7200;

    pub fn refresh_interval_or_default(self) -> u32
        ensures { result ≡ seconds_or 3600 self.refresh_interval }
    {
        self.refresh_interval.unwrap_or(Self::DEFAULT_REFRESH)
    }

    pub fn retry_interval_or_default(self) -> u32
        ensures { result ≡ seconds_or 600 self.retry_interval }
    {
        self.retry_interval.unwrap_or(Self::DEFAULT_RETRY)
    }

    pub fn expire_interval_or_default(self) -> u32
        ensures { result ≡ seconds_or 7200 self.expire_interval }
    {
        self.expire_interval.unwrap_or(Self::DEFAULT_EXPIRE)
    }
}

// Cache to router: the change asked for cannot be had, ask for the whole table.
#[derive(Clone, Copy)]
pub struct RtrCacheReset {
    pub version: RtrProtocolVersion,
}

// Cache to router: one BGPsec router key, version 1 only.
#[derive(Clone, Copy)]
pub struct RtrRouterKey {
    pub version: RtrProtocolVersion,
    pub flags: u8,
    pub subject_key_identifier: Place,
    pub asn: u32,
    pub subject_public_key_info: Place,
}

impl RtrRouterKey {
    pub fn is_announcement(self) -> bool
        ensures { result ≡ announces self.flags }
    {
        self.flags % 2 == 1
    }

    pub fn is_withdrawal(self) -> bool
        ensures { result ≡ withdraws self.flags }
    {
        self.flags % 2 == 0
    }

    pub fn subject_key_identifier_answer(self, input: &[u8]) -> Result<(), PlaceOutside>
        ensures { part_number result ≡ number_if (key_inside self.subject_key_identifier input.now) }
    {
        let place = self.subject_key_identifier;
        place.key_answer(input)
    }

    pub fn subject_key_identifier_part(self, input: &[u8]) -> &[u8]
        ensures { PartOf (key_inside self.subject_key_identifier input.now) self.subject_key_identifier input.entry result }
    {
        let place = self.subject_key_identifier;
        place.key_part(input)
    }

    pub fn subject_public_key_info_answer(self, input: &[u8]) -> Result<(), PlaceOutside>
        ensures { part_number result ≡ number_if (inside self.subject_public_key_info input.now) }
    {
        let place = self.subject_public_key_info;
        place.answer(input)
    }

    pub fn subject_public_key_info_part(self, input: &[u8]) -> &[u8]
        ensures { PartOf (inside self.subject_public_key_info input.now) self.subject_public_key_info input.entry result }
    {
        let place = self.subject_public_key_info;
        place.part(input)
    }
}

// Either way: what was wrong, with a copy of the PDU that was and a text for people.
#[derive(Clone, Copy)]
pub struct RtrErrorReport {
    pub version: RtrProtocolVersion,
    pub error_code: RtrErrorCode,
    pub erroneous_pdu: Place,
    pub error_text: Place,
}

impl RtrErrorReport {
    pub fn new(
        version: RtrProtocolVersion,
        error_code: RtrErrorCode,
        erroneous_pdu: Place,
        error_text: Place,
    ) -> Self
        ensures { result ≡ record { version = version; error_code = error_code; erroneous_pdu = erroneous_pdu; error_text = error_text } }
    {
        Self {
            version,
            error_code,
            erroneous_pdu,
            error_text,
        }
    }

    pub fn corrupt_data(version: RtrProtocolVersion, erroneous_pdu: Place, message: Place) -> Self
        ensures { result ≡ record { version = version; error_code = RtrErrorCode.CorruptData; erroneous_pdu = erroneous_pdu; error_text = message } }
    {
        Self::new(version, RtrErrorCode::CorruptData, erroneous_pdu, message)
    }

    pub fn erroneous_pdu_answer(self, input: &[u8]) -> Result<(), PlaceOutside>
        ensures { part_number result ≡ number_if (inside self.erroneous_pdu input.now) }
    {
        let place = self.erroneous_pdu;
        place.answer(input)
    }

    pub fn erroneous_pdu_part(self, input: &[u8]) -> &[u8]
        ensures { PartOf (inside self.erroneous_pdu input.now) self.erroneous_pdu input.entry result }
    {
        let place = self.erroneous_pdu;
        place.part(input)
    }

    pub fn error_text_answer(self, input: &[u8]) -> Result<(), PlaceOutside>
        ensures { part_number result ≡ number_if (inside self.error_text input.now) }
    {
        let place = self.error_text;
        place.answer(input)
    }

    pub fn error_text_part(self, input: &[u8]) -> &[u8]
        ensures { PartOf (inside self.error_text input.now) self.error_text input.entry result }
    {
        let place = self.error_text;
        place.part(input)
    }
}

// ---- Any PDU

#[derive(Clone, Copy)]
pub enum RtrPdu {
    SerialNotify(RtrSerialNotify),
    SerialQuery(RtrSerialQuery),
    ResetQuery(RtrResetQuery),
    CacheResponse(RtrCacheResponse),
    IPv4Prefix(RtrIPv4Prefix),
    IPv6Prefix(RtrIPv6Prefix),
    EndOfData(RtrEndOfData),
    CacheReset(RtrCacheReset),
    RouterKey(RtrRouterKey),
    ErrorReport(RtrErrorReport),
}

impl RtrPdu {
    pub fn pdu_type(self) -> RtrPduType
        ensures { result ≡ type_of self }
    {
        match self {
            RtrPdu::SerialNotify(_) => RtrPduType::SerialNotify,
            RtrPdu::SerialQuery(_) => RtrPduType::SerialQuery,
            RtrPdu::ResetQuery(_) => RtrPduType::ResetQuery,
            RtrPdu::CacheResponse(_) => RtrPduType::CacheResponse,
            RtrPdu::IPv4Prefix(_) => RtrPduType::IPv4Prefix,
            RtrPdu::IPv6Prefix(_) => RtrPduType::IPv6Prefix,
            RtrPdu::EndOfData(_) => RtrPduType::EndOfData,
            RtrPdu::CacheReset(_) => RtrPduType::CacheReset,
            RtrPdu::RouterKey(_) => RtrPduType::RouterKey,
            RtrPdu::ErrorReport(_) => RtrPduType::ErrorReport,
        }
    }

    pub fn version(self) -> RtrProtocolVersion
        ensures { result ≡ version_of self }
    {
        match self {
            RtrPdu::SerialNotify(p) => p.version,
            RtrPdu::SerialQuery(p) => p.version,
            RtrPdu::ResetQuery(p) => p.version,
            RtrPdu::CacheResponse(p) => p.version,
            RtrPdu::IPv4Prefix(p) => p.version,
            RtrPdu::IPv6Prefix(p) => p.version,
            RtrPdu::EndOfData(p) => p.version,
            RtrPdu::CacheReset(p) => p.version,
            RtrPdu::RouterKey(p) => p.version,
            RtrPdu::ErrorReport(p) => p.version,
        }
    }
}
