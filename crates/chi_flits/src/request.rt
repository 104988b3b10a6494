//! What a request at the port asks for.

ghost use Rattle.std.specs.Prelude.{◌≡◌, ◌^◌, min};
ghost use Rattle.chi_flits.specs.Requests.{addr_at, address, answers_data, bytes_of, count_of, fields_at, first_addr, has_told_size, is_exclusive, is_of_granule, is_told, lane_at, lanes_at, len_of, lies_at, may_write, needs_data, operand_len, quarter_at};

use crate::flit::RequestFlit;
use crate::opcode::{is_atomic, is_compare, is_read, is_write, takes_txn, writes_nothing};
use chi_trace::RequestFields;

const ADDRESSES: u64 = 1 << 52;

impl RequestFlit {
    pub(crate) fn needs_data(&self) -> bool
        ensures { result ≡ needs_data self.now }
    {
        !is_read(self.opcode)
    }

    pub(crate) fn answers_data(&self) -> bool
        ensures { result ≡ answers_data self.now }
    {
        is_read(self.opcode) || 0x30 <= self.opcode
    }

    /// How many bytes its size stands for.
    fn bytes(&self) -> u64
        ensures { result ≡ bytes_of self.now }
    {
        1 << self.size.min(7)
    }

    /// How many bytes its operand has.
    fn operand_len(&self) -> u64
        ensures { result ≡ operand_len self.now }
    {
        if is_compare(self.opcode) {
            self.bytes() / 2
        } else {
            self.bytes()
        }
    }

    pub(crate) fn address(&self) -> u64
        ensures { result ≡ address self.now }
    {
        self.addr % ADDRESSES
    }

    fn has_told_size(&self) -> bool
        ensures { result ≡ has_told_size self.now }
    {
        if is_read(self.opcode) || self.opcode == 0x1c {
            self.size <= 6
        } else if self.opcode == 0x1d {
            self.size == 6
        } else if is_compare(self.opcode) {
            1 <= self.size && self.size <= 4
        } else {
            is_atomic(self.opcode) && self.size <= 3
        }
    }

    /// Whether it is an exclusive read or write.
    fn is_exclusive(&self) -> bool
        ensures { result ≡ is_exclusive self.now }
    {
        self.excl && !is_atomic(self.opcode)
    }

    /// Whether its operations are told.
    pub(crate) fn is_told(&self) -> bool
        ensures { result ≡ is_told self.now }
    {
        !self.is_exclusive()
            && self.has_told_size()
            && (is_write(self.opcode) || self.address() % self.operand_len() == 0)
    }

    /// Whether it is not told, and may write.
    pub(crate) fn may_write(&self) -> bool
        ensures { result ≡ may_write self.now }
    {
        takes_txn(self.opcode)
            && !self.is_told()
            && !is_read(self.opcode)
            && !writes_nothing(self.opcode)
    }

    /// How many granules it has.
    pub(crate) fn count(&self) -> u8
        ensures { result ≡ count_of self.now }
    {
        if is_atomic(self.opcode) || self.size <= 3 {
            1
        } else {
            (self.bytes() / 8) as u8
        }
    }

    fn first_addr(&self) -> u64
        ensures { result ≡ first_addr self.now }
    {
        if is_write(self.opcode) {
            self.address() / self.bytes() * self.bytes()
        } else {
            self.address()
        }
    }

    /// The address of one of its operations.
    fn addr_at(&self, place: u8) -> u64
        ensures { result ≡ addr_at self.now place }
    {
        self.first_addr() + 8 * u64::from(place)
    }

    /// Whether one of its operations is at a granule.
    pub(crate) fn lies_at(&self, granule: u64, place: u8) -> bool
        ensures { result ≡ lies_at granule self.now place }
    {
        self.addr_at(place) / 8 == granule
    }

    /// Whether it has an operation at a granule.
    pub(crate) fn is_of_granule(&self, granule: u64) -> bool
        ensures { result ≡ is_of_granule granule self.now }
    {
        (0..self.count()).any(|place| self.lies_at(granule, place))
    }

    /// The quarter of its line of 64 bytes.
    pub(crate) fn quarter_at(&self, place: u8) -> usize
        ensures { result ≡ quarter_at self.now place }
    {
        (self.addr_at(place) % 64 / 16) as usize
    }

    fn lane_at(&self, place: u8) -> u64
        ensures { result ≡ lane_at self.now place }
    {
        self.addr_at(place) % 16
    }

    fn len(&self) -> u64
        ensures { result ≡ len_of self.now }
    {
        self.operand_len().min(8)
    }

    /// The lanes of its bytes, as bits.
    pub(crate) fn lanes_at(&self, place: u8) -> u16
        ensures { result ≡ lanes_at self.now place }
    {
        let ones = (1u64 << self.len()) - 1;
        ((ones << self.lane_at(place)) % (1 << 16)) as u16
    }

    fn event_opcode(&self) -> u8
        ensures { result ≡ (fields_at self.now 0).opcode }
    {
        if self.opcode == 0x1d {
            0x1c
        } else {
            self.opcode
        }
    }

    fn event_size(&self) -> u8
        ensures { result ≡ (fields_at self.now 0).size }
    {
        if is_atomic(self.opcode) {
            self.size
        } else {
            self.size.min(3)
        }
    }

    /// The fields of one of its operations.
    pub(crate) fn fields_at(&self, place: u8) -> RequestFields
        ensures { result ≡ fields_at self.now place }
    {
        RequestFields {
            number: self.number,
            src: self.src,
            txn: self.txn,
            opcode: self.event_opcode(),
            size: self.event_size(),
            addr: self.addr_at(place),
            endian: is_atomic(self.opcode) && self.endian,
            be: 0,
            lanes: [0; 16],
        }
    }
}
