// What document 02, M-103, asks of KISS packets as contracts of the calls that C links, as in `demand_contracts_frames`.
#![tactic(auto)]

ghost use Rattle.std.specs.Prelude.{◌≡◌, ◌+◌, ◌*◌, ◌≤◌, take, length as list_length};
ghost use Rattle.octets.specs.Splice.{splice};
ghost use Rattle.octets.specs.Outcome.{number_by};
ghost use Rattle.kiss.specs.Packet.{packet};
ghost use Rattle.kiss.specs.Write.{number_of as write_number, octets_written, written};
ghost use Rattle.kiss_reading.specs.Answer.{number_of, port_given, octets_given};
ghost use Rattle.kiss_reading.specs.Read.{read_into};
ghost use Rattle.octets.specs.Table.{FirstRow};
ghost use Rattle.octets.specs.Lent.{starting};
ghost use Rattle.demands_kiss.specs.Kiss.{kiss_read_table, kiss_length, kiss_write_table};

// The number is that of the first row of the table that holds; a refusal gives port 0 and length 0 and leaves the output as it was;
// of an accepted packet the data stands at the start of the output, the rest stays, and port and data spell the packet.
pub fn read(input: &[u8], output: &mut [u8], port: &mut u8, length: &mut usize) -> u32
    ensures first_row { FirstRow (kiss_read_table input.now (list_length output.old)) result }
    ensures port_after { (result ≡ 0 → ⊥) → (port.new ≡ 0) × (length.new ≡ 0) × (output.new ≡ output.old) }
    ensures port_bound { result ≡ 0 → (port.new ≤ 11) × (packet port.new (take length.new output.new) ≡ input.now)
        × (output.new ≡ starting (take length.new output.new) output.old) }
    ensures output_after { (output.new ≡ splice output.old 0 (octets_given (read_into input.now (list_length output.old))))
        × (port.new ≡ port_given (read_into input.now (list_length output.old)))
        × (length.new ≡ list_length (octets_given (read_into input.now (list_length output.old)))) }
{
    loader::ax25_kiss_read(input, output, port, length)
}

// The number is that of the first row of the table that holds; a refusal gives length 0 and leaves the output as it was; else the packet
// stands at the start of the output, the rest stays, and the length is the packet's, at most twice the data's and 3.
pub fn wrote(port: u8, input: &[u8], output: &mut [u8], length: &mut usize) -> u32
    ensures first_row { FirstRow (kiss_write_table port input.now (list_length output.old)) result }
    ensures length_after { (result ≡ 0 → ⊥) → (length.new ≡ 0) × (output.new ≡ output.old) }
    ensures length_after_2 { result ≡ 0 → (length.new ≡ kiss_length input.now) × (length.new ≤ 2 * list_length input.now + 3)
        × (output.new ≡ starting (packet port input.now) output.old) }
{
    loader::ax25_kiss_write(port, input, output, length)
}

// Reading what was written gives the port and the data, where both had room.
pub fn read_back(
    port: u8,
    input: &[u8],
    line: &mut [u8],
    output: &mut [u8],
    from: &mut u8,
    length: &mut usize,
) -> u32
    ensures value { number_by write_number (written port input.now (list_length line.old)) ≡ 0 → list_length input.now ≤ list_length output.old
        → (result ≡ 0) × (from.new ≡ port) × (length.new ≡ list_length input.now) × (output.new ≡ starting input.now output.old) }
    ensures line_after { line.new ≡ splice line.old 0 (octets_written port input.now (list_length line.old)) }
    ensures value_2 { (result ≡ number_by number_of (read_into (take (list_length (octets_written port input.now (list_length line.old))) line.new) (list_length output.old)))
        × (output.new ≡ splice output.old 0 (octets_given (read_into (take (list_length (octets_written port input.now (list_length line.old))) line.new) (list_length output.old))))
        × (from.new ≡ port_given (read_into (take (list_length (octets_written port input.now (list_length line.old))) line.new) (list_length output.old)))
        × (length.new ≡ list_length (octets_given (read_into (take (list_length (octets_written port input.now (list_length line.old))) line.new) (list_length output.old)))) }
{
    loader::ax25_kiss_write(port, input, line, length);
    let n = *length;
    loader::ax25_kiss_read(&line[..n], output, from, length)
}
