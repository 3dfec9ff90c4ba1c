// A record in memory: its number in 4 bytes and its length in 2, highest byte first, and then the payload.
ghost use Rattle.std.specs.Prelude.{◌≡◌, ◌+◌, ◌<◌, ◌≤◌, length};
ghost use Rattle.std.proofs.Math.Seq.{paste};
ghost use Rattle.memory.specs.Records.{number_of, length_of, size_of, body_of, encoded};

// The bytes before a record's payload.
pub(crate) const HEAD: usize = 6;

// The bytes of the longest record: a store has room for one record in each of these.
pub(crate) const ROOM: usize = 518;

// The number of the record at the front of `record`. Its six bytes are asked of the slice itself: a struct around it would be
// made before each look.
pub(crate) fn number_of(record: &[u8]) -> u32
    requires { 6 ≤ length record.now }
    ensures { result ≡ number_of record.now }
{
    u32::from_be_bytes([record[0], record[1], record[2], record[3]])
}

// The length of its payload.
pub(crate) fn length_of(record: &[u8]) -> usize
    requires { 6 ≤ length record.now }
    ensures value { result ≡ length_of record.now }
    ensures bound { result < 65536 }
{
    usize::from(u16::from_be_bytes([record[4], record[5]]))
}

// Its payload.
pub(crate) fn payload_of(record: &[u8]) -> &[u8]
    requires { size_of record.now ≤ length record.now }
    ensures { result.now ≡ body_of record.now }
{
    &record[HEAD..HEAD + length_of(record)]
}

// Writes a record at `at`, and no byte elsewhere. The place is a parameter, since what is written to a part that a
// `Vec` lends out is lost to its proofs.
pub(crate) fn write_record(bytes: &mut [u8], at: usize, number: u32, payload: &[u8])
    requires fits { at + (6 + length payload.now) ≤ length bytes.old }
    requires short { length payload.now < 65536 }
    ensures { bytes.new ≡ paste bytes.old at (encoded number payload.now) (6 + length payload.now) }
{
    let body = at + HEAD;
    bytes[at..at + 4].copy_from_slice(&number.to_be_bytes());
    bytes[at + 4..body].copy_from_slice(&(payload.len() as u16).to_be_bytes());
    bytes[body..body + payload.len()].copy_from_slice(payload);
}
