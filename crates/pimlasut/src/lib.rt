// The library for C: include/pimlasut.h has the same functions with C's types. A slice crosses as a pointer and a length.
// A record crosses as 146 numbers and a table of points as 9,472 (crates flat, tables), because no enum crosses.
// Every function answers the result number; on a refusal every lent array and number stays as it was, but the facts of a reading, which
// say where and why then.
#![tactic(auto)]

ghost use Rattle.std.specs.Prelude.{◌≡◌, true, ◌&&◌, ◌<◌, eqb, length, IfOk};
ghost use Rattle.std.specs.Result.{result_unwrap_or};
ghost use Rattle.tree.specs.Bits.{bit};
ghost use Rattle.refusals.specs.Refusals.{unfit_output};
ghost use Rattle.refusals.specs.Numbered.{number_of};
ghost use Rattle.reader.specs.Reading.{unplaced, read_bare};
ghost use Rattle.writer.specs.Writing.{write_bare, bare_buffer};
ghost use Rattle.wrapper.specs.Wrapper.{read_wrapped, write_wrapped, wrapped_buffer};
ghost use Rattle.sei.specs.SeiUnit.{read_unit, write_unit, unit_buffer};
ghost use Rattle.shader.specs.Shader.{bits_in, conversion_result, conversion_bits};
ghost use Rattle.reason.specs.Reason.{write_reason, reason_buffer};
ghost use Rattle.flat.specs.Flat.{place_length, flat, flat_length, record_in, block_named};
ghost use Rattle.tables.specs.Table.{flat_point};
ghost use Rattle.pimlasut.specs.Boundary.{number_for, if_sized, after, is_record, is_point, is_table, is_facts, facts_length, facts_of, facts_after, answer_into, singles, placing, placed_table, looking, joining, joined_table, Patterns};

use output::Written;
use reader::Reading;
use refusals::Refusal;
use shader::Numbers;
use track::Point;

// An array of a wrong length gets this, whatever else is wrong.
const WRONG_LENGTH: Refusal = Refusal::UnfitOutput;

// A refusal's number, as C's functions give it.
fn refused(refusal: Refusal) -> u32
    ensures { result ≡ number_of refusal }
{
    u32::from(refusal.number())
}

// How many numbers the shader gets.
const SINGLES: usize = 7;

// ---- reading

// The facts of a reading cross as one array: the bits read, the number of blocks passed over, where a refused element begins, and 1 if that
// is counted from the wrapper; then why: the element, what is told of the values that are allowed, the value's lower and upper 32 bits, and
// the lowest and the highest that are allowed.
const FACTS: usize = 10;

fn put_facts(reading: &Reading, facts: &mut [u32])
    requires { length facts.old ≡ facts_length }
    ensures { facts.new ≡ facts_of reading.now }
{
    let cause = reading.cause;
    facts.copy_from_slice(&[
        reading.bits,
        u32::from(reading.skipped),
        reading.offset,
        u32::from(reading.in_wrapper),
        u32::from(element::number_of(cause.element)),
        cause.kind as u32,
        (cause.value % 4294967296) as u32,
        (cause.value / 4294967296) as u32,
        u32::from(cause.lowest),
        u32::from(cause.highest),
    ]);
}

// Beside a wrong length the facts are zeros; an array of another length stays as it was.
fn clear_facts(facts: &mut [u32])
    ensures { facts.new ≡ facts_after (unplaced unfit_output) facts.old }
{
    if facts.len() == FACTS {
        facts.fill(0);
    }
}

// Whether a record's row and a row of facts have their lengths. It is asked before anything is read, so that a call with another length costs
// the same whatever the input is.
fn are_sized(numbers: &[i32], facts: &[u32]) -> bool
    ensures { result ≡ is_record numbers.now && is_facts facts.now }
{
    numbers.len() == flat::NUMBERS && facts.len() == FACTS
}

// Refuses a reading for a length.
fn refuse_reading(facts: &mut [u32]) -> u32
    ensures result { result ≡ unfit_output }
    ensures facts { facts.new ≡ facts_after (unplaced unfit_output) facts.old }
{
    clear_facts(facts);
    refused(WRONG_LENGTH)
}

// Gives what was read, into a record's row and a row of facts.
fn give_reading(reading: Reading, numbers: &mut [i32], facts: &mut [u32]) -> u32
    requires { (length numbers.old ≡ flat_length) × (length facts.old ≡ facts_length) }
    ensures result { result ≡ (answer_into numbers.old facts.old reading).result }
    ensures record { numbers.new ≡ after result (flat reading.«record») numbers.old }
    ensures facts { facts.new ≡ facts_after (answer_into numbers.old facts.old reading) facts.old }
{
    put_facts(&reading, facts);
    if reading.result != 0 {
        return u32::from(reading.result);
    }
    flat::put_record(numbers, 0, reading.record);
    0
}

#[unsafe(no_mangle)]
pub extern "C" fn pim_read_bare(input: &[u8], numbers: &mut [i32], facts: &mut [u32]) -> u32
    ensures result { result ≡ (answer_into numbers.old facts.old (read_bare input.now)).result }
    ensures record { numbers.new ≡ after result (flat (read_bare input.now).«record») numbers.old }
    ensures facts { facts.new ≡ facts_after (answer_into numbers.old facts.old (read_bare input.now)) facts.old }
{
    if !are_sized(numbers, facts) {
        return refuse_reading(facts);
    }
    give_reading(reader::read_data(input), numbers, facts)
}

#[unsafe(no_mangle)]
pub extern "C" fn pim_read_wrapped(input: &[u8], numbers: &mut [i32], facts: &mut [u32]) -> u32
    ensures result { result ≡ (answer_into numbers.old facts.old (read_wrapped input.now)).result }
    ensures record { numbers.new ≡ after result (flat (read_wrapped input.now).«record») numbers.old }
    ensures facts { facts.new ≡ facts_after (answer_into numbers.old facts.old (read_wrapped input.now)) facts.old }
{
    if !are_sized(numbers, facts) {
        return refuse_reading(facts);
    }
    give_reading(wrapper::read_wrapped(input), numbers, facts)
}

#[unsafe(no_mangle)]
pub extern "C" fn pim_read_unit(input: &[u8], numbers: &mut [i32], facts: &mut [u32]) -> u32
    ensures result { result ≡ (answer_into numbers.old facts.old (read_unit input.now)).result }
    ensures record { numbers.new ≡ after result (flat (read_unit input.now).«record») numbers.old }
    ensures facts { facts.new ≡ facts_after (answer_into numbers.old facts.old (read_unit input.now)) facts.old }
{
    if !are_sized(numbers, facts) {
        return refuse_reading(facts);
    }
    give_reading(sei::read_unit(input), numbers, facts)
}

// ---- writing

// C needs the three that write by name. They are alike, and are not one function over the writer: what a writer that is handed in writes is
// said by a ghost value, and no call that picks one beside a closure is proved yet. A record goes from its row to the writer and through no
// Result, which would copy it.

// Of the answers as README's functions give them, which `reason` and `sei` have alone.
fn give_written(answer: Written, written: &mut u32) -> u32
    requires { answer.bytes < 4294967296 }
    ensures result { result ≡ answer.result }
    ensures bytes { written.new ≡ after result answer.bytes written.old }
{
    if answer.result != 0 {
        return u32::from(answer.result);
    }
    *written = answer.bytes as u32;
    0
}

#[unsafe(no_mangle)]
pub extern "C" fn pim_write_bare(numbers: &[i32], out: &mut [u8], written: &mut u32) -> u32
    ensures result { result ≡ if_sized (is_record numbers.now) (write_bare (record_in numbers.now) out.old).result }
    ensures buffer { out.new ≡ after result (bare_buffer (record_in numbers.now) out.old) out.old }
    ensures bytes { written.new ≡ after result (write_bare (record_in numbers.now) out.old).bytes written.old }
{
    if numbers.len() != flat::NUMBERS {
        return refused(WRONG_LENGTH);
    }
    let answer = writer::write_data(flat::get_record(numbers, 0), out);
    give_written(answer, written)
}

#[unsafe(no_mangle)]
pub extern "C" fn pim_write_wrapped(numbers: &[i32], out: &mut [u8], written: &mut u32) -> u32
    ensures result { result ≡ if_sized (is_record numbers.now) (write_wrapped (record_in numbers.now) out.old).result }
    ensures buffer { out.new ≡ after result (wrapped_buffer (record_in numbers.now) out.old) out.old }
    ensures bytes { written.new ≡ after result (write_wrapped (record_in numbers.now) out.old).bytes written.old }
{
    if numbers.len() != flat::NUMBERS {
        return refused(WRONG_LENGTH);
    }
    let answer = wrapper::write_wrapped(flat::get_record(numbers, 0), out);
    give_written(answer, written)
}

#[unsafe(no_mangle)]
pub extern "C" fn pim_write_unit(numbers: &[i32], out: &mut [u8], written: &mut u32) -> u32
    ensures result { result ≡ if_sized (is_record numbers.now) (write_unit (record_in numbers.now) out.old).result }
    ensures buffer { out.new ≡ after result (unit_buffer (record_in numbers.now) out.old) out.old }
    ensures bytes { written.new ≡ after result (write_unit (record_in numbers.now) out.old).bytes written.old }
{
    if numbers.len() != flat::NUMBERS {
        return refused(WRONG_LENGTH);
    }
    let answer = sei::write_unit(flat::get_record(numbers, 0), out);
    give_written(answer, written)
}

// ---- why

// Why wrapped data is refused, as text.
#[unsafe(no_mangle)]
pub extern "C" fn pim_why_wrapped(input: &[u8], out: &mut [u8], written: &mut u32) -> u32
    ensures result { result ≡ (write_reason (read_wrapped input.now) out.old).result }
    ensures buffer { out.new ≡ after result (reason_buffer (read_wrapped input.now) out.old) out.old }
    ensures bytes { written.new ≡ after result (write_reason (read_wrapped input.now) out.old).bytes written.old }
{
    let answer = reason::write_reason(wrapper::read_wrapped(input), out);
    give_written(answer, written)
}

// ---- the shader's numbers

#[tactic(auto, using(crate::proofs::Patterns::is_number))]
fn put_bits(n: Numbers, bits: &mut [u32])
    requires { (length bits.old ≡ singles) × Patterns (bits_in n) }
    ensures { bits.new ≡ bits_in n }
{
    bits.copy_from_slice(&[
        n.target_max_pq.to_bits(),
        n.trim_slope.to_bits(),
        n.trim_offset.to_bits(),
        n.trim_power.to_bits(),
        n.trim_chroma_weight.to_bits(),
        n.trim_saturation_gain.to_bits(),
        n.ms_weight.to_bits(),
    ]);
}

#[unsafe(no_mangle)]
pub extern "C" fn pim_shader(numbers: &[i32], bits: &mut [u32]) -> u32
    ensures result { result ≡ if_sized (eqb (length numbers.now) place_length && eqb (length bits.old) singles) (conversion_result (block_named numbers.now)) }
    ensures bits { bits.new ≡ after result (conversion_bits (block_named numbers.now)) bits.old }
{
    if numbers.len() != flat::PLACE || bits.len() != SINGLES {
        return refused(WRONG_LENGTH);
    }
    let conversion = shader::shader_numbers(flat::get_block(numbers, 0));
    if conversion.result != 0 {
        return u32::from(conversion.result);
    }
    put_bits(conversion.numbers, bits);
    0
}

// ---- tracks

// Gives an outcome to C: done with a number, or refused, and then the lent number stays as it was.
fn give(outcome: Result<u32, Refusal>, number: &mut u32) -> u32
    ensures result { result ≡ number_for outcome }
    ensures number { number.new ≡ result_unwrap_or outcome number.old }
{
    match outcome {
        Ok(done) => {
            *number = done;
            0
        }
        Err(refusal) => refused(refusal),
    }
}

// How many points a placing leaves.
fn place_into(
    numbers: &[i32],
    picture: i32,
    segment: u16,
    table: &mut [i32],
) -> Result<u32, Refusal>
    ensures result { number_for result ≡ if_sized (is_record numbers.now && is_table table.old) (placing numbers.now picture segment).result }
    ensures table { table.new ≡ after (number_for result) (placed_table numbers.now picture segment) table.old }
    ensures count { IfOk result (λ n. n ≡ (placing numbers.now picture segment).count) }
{
    if numbers.len() != flat::NUMBERS || table.len() != tables::NUMBERS {
        return Err(WRONG_LENGTH);
    }
    let shown = flat::get_record(numbers, 0);
    if !valid::is_valid(shown) {
        return Err(Refusal::NotValid);
    }
    tables::clear(table);
    if shown.refresh {
        let point = Point {
            picture,
            segment,
            record: shown,
        };
        tables::put_point(table, 0, point);
        return Ok(1);
    }
    Ok(0)
}

#[unsafe(no_mangle)]
pub extern "C" fn pim_place(
    numbers: &[i32],
    picture: i32,
    segment: u16,
    table: &mut [i32],
    count: &mut u32,
) -> u32
    ensures result { result ≡ if_sized (is_record numbers.now && is_table table.old) (placing numbers.now picture segment).result }
    ensures table { table.new ≡ after result (placed_table numbers.now picture segment) table.old }
    ensures count { count.new ≡ after result (placing numbers.now picture segment).count count.old }
{
    give(place_into(numbers, picture, segment, table), count)
}

// 1 if a point is in force, which is shown, and 0 with a cleared one.
fn look_into(table: &[i32], count: usize, picture: i32, numbers: &mut [i32]) -> Result<u32, Refusal>
    ensures result { number_for result ≡ if_sized (is_table table.now && is_point numbers.old) (looking table.now count picture).result }
    ensures point { numbers.new ≡ after (number_for result) (flat_point (looking table.now count picture).point) numbers.old }
    ensures found { IfOk result (λ n. n ≡ bit (looking table.now count picture).found) }
{
    if table.len() != tables::NUMBERS || numbers.len() != tables::POINT {
        return Err(WRONG_LENGTH);
    }
    let seen = tables::scan(table, count);
    let found = plan::seek(seen, count, picture)?;
    tables::put_point(numbers, 0, tables::found_point(table, found));
    Ok(u32::from(found.is_some()))
}

#[unsafe(no_mangle)]
pub extern "C" fn pim_lookup(
    table: &[i32],
    count: usize,
    picture: i32,
    numbers: &mut [i32],
    found: &mut u32,
) -> u32
    ensures result { result ≡ if_sized (is_table table.now && is_point numbers.old) (looking table.now count picture).result }
    ensures point { numbers.new ≡ after result (flat_point (looking table.now count picture).point) numbers.old }
    ensures found { found.new ≡ after result (bit (looking table.now count picture).found) found.old }
{
    give(look_into(table, count, picture, numbers), found)
}

// How many points a join leaves.
fn join_into(
    first: &[i32],
    first_count: usize,
    second: &[i32],
    second_count: usize,
    table: &mut [i32],
) -> Result<u32, Refusal>
    ensures result { number_for result ≡ if_sized (is_table first.now && is_table second.now && is_table table.old) (joining first.now first_count second.now second_count).result }
    ensures table { table.new ≡ after (number_for result) (joined_table first.now first_count second.now second_count) table.old }
    ensures count { IfOk result (λ n. n ≡ (joining first.now first_count second.now second_count).count) }
{
    if first.len() != tables::NUMBERS
        || second.len() != tables::NUMBERS
        || table.len() != tables::NUMBERS
    {
        return Err(WRONG_LENGTH);
    }
    let s = tables::scan(first, first_count);
    let t = tables::scan(second, second_count);
    let layout = plan::decide(s, first_count, t, second_count, plan::POINTS);
    tables::fill(table, first, second, &layout);
    let done = layout?;
    Ok(done.count as u32)
}

#[unsafe(no_mangle)]
pub extern "C" fn pim_join(
    first: &[i32],
    first_count: usize,
    second: &[i32],
    second_count: usize,
    table: &mut [i32],
    count: &mut u32,
) -> u32
    ensures result { result ≡ if_sized (is_table first.now && is_table second.now && is_table table.old) (joining first.now first_count second.now second_count).result }
    ensures table { table.new ≡ after result (joined_table first.now first_count second.now second_count) table.old }
    ensures count { count.new ≡ after result (joining first.now first_count second.now second_count).count count.old }
{
    give(
        join_into(first, first_count, second, second_count, table),
        count,
    )
}
