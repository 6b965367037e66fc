// The values of attributes: what a state says of itself, of the transaction that asks, of an entity or of a block.
ghost use Rattle.std.specs.Prelude.{◌≡◌, pos};
ghost use Rattle.gw_expr.specs.declared.attribute.Subject.TheVariants as subjects;
ghost use Rattle.gw_meaning.specs.Evaluation.{amount, own_value, owned, subject_prog, named, numbered, parameter_value, value_held, entity_value, defined_prog, storage_value, table_value, block_count, counted, block_value, drawn_prog, random_prog, random_part, millionths, thousandth, attribute_prog, ◌~>◌, left_prog, units_left};
ghost use Rattle.gw_asking.specs.Deciding.{Decides, Comes};
ghost use Rattle.gw_values.specs.Contexts.{DecidesIn};

use crate::context::Context;
use gw_asking::{Notes, Run, ask_capacity, ask_label, ask_number, draw, millionths};
use gw_expr::{Halt, Stop, Subject};
use gw_meaning::{Asker, StatementId};
use gw_names::{Class, Key, Name};
use gw_nums::{Millionths, Val};
use gw_state::State;

// The value of an attribute other than that of a VARIABLE or of a FUNCTION.
#[tactic(auto, unfolding(gw_meaning::specs::Evaluation::attribute_prog))]
pub fn attribute(
    context: Context,
    notes: &mut Notes,
    class: Class,
    of: &Subject,
) -> Result<Val, Halt>
    ensures { DecidesIn context.entry (λ s q. attribute_prog s q class of.now) result notes.old notes.new }
{
    match class {
        Class::C1 | Class::Ac1 | Class::Tg1 | Class::M1 | Class::Xn1 | Class::Pr => {
            own_value(context.state, context.asker, class)
        }
        Class::P => of_parameter(context, notes, of),
        Class::F | Class::Fc => of_entity(context, notes, class, of),
        Class::Q | Class::Qc => of_entity(context, notes, class, of),
        Class::Qm | Class::Qz => of_entity(context, notes, class, of),
        Class::X | Class::Ls => of_entity(context, notes, class, of),
        Class::Ch | Class::Cc => of_entity(context, notes, class, of),
        Class::S | Class::Sc | Class::Sm => of_storage(context.state, class, of),
        Class::R => left(context, notes, of),
        Class::Tc => of_table(context.state, of),
        Class::N | Class::W => of_block(context, notes, class, of),
        Class::Rn => random(context.run, notes, of),
        Class::V | Class::Fn => Err(Halt::stop(Stop::Range)),
    }
}

// Of the run, or of the transaction that asks.
#[inline(always)]
fn own_value(state: &State, asker: &Asker, class: Class) -> Result<Val, Halt>
    ensures { Comes (own_value state.now asker.now class) result }
{
    let clock = state.clock().ticks();
    match class {
        Class::C1 => amount(clock.saturating_sub(state.since().ticks())),
        Class::Ac1 => amount(clock),
        Class::Tg1 => amount(asker.remaining),
        Class::M1 | Class::Xn1 | Class::Pr if !asker.is_transaction => {
            Err(Halt::stop(Stop::NoParameter))
        }
        Class::M1 => amount(clock.saturating_sub(asker.mark.ticks())),
        Class::Xn1 => amount(asker.number),
        Class::Pr => Ok(asker.priority),
        _ => Err(Halt::stop(Stop::Range)),
    }
}

// Of the transaction that asks: its parameter.
#[inline(always)]
fn of_parameter(context: Context, notes: &mut Notes, of: &Subject) -> Result<Val, Halt>
    ensures { DecidesIn context.entry (λ s q. subject_prog of.now ~> (λ key. parameter_value s q key))
        result notes.old notes.new }
{
    let key = subject(context.run, notes, of)?;
    parameter(context.state, context.asker, &key)
}

// The value of a parameter of the transaction that asks.
#[inline(always)]
fn parameter(state: &State, asker: &Asker, key: &Key) -> Result<Val, Halt>
    ensures { Comes (parameter_value state.now asker.now key.now) result }
{
    if !asker.is_transaction {
        return Err(Halt::stop(Stop::NoParameter));
    }
    value_held(state.parameters().get(asker.number, key))
}

// Of a facility, a queue, a savevalue, a switch or a user chain.
fn of_entity(context: Context, notes: &mut Notes, class: Class, of: &Subject) -> Result<Val, Halt>
    ensures { DecidesIn context.entry (λ s q. subject_prog of.now ~> (λ key. entity_value s class key))
        result notes.old notes.new }
{
    let key = subject(context.run, notes, of)?;
    entity_value(context.state, class, &key)
}

fn entity_value(state: &State, class: Class, key: &Key) -> Result<Val, Halt>
    ensures { Comes (entity_value state.now class key.now) result }
{
    match class {
        Class::F => amount(owned(state.entities().facility(key).owner())),
        Class::Fc => amount(state.entities().facility(key).captures()),
        Class::Q => amount(state.entities().queue(key).level().content()),
        Class::Qc => amount(state.entities().queue(key).entries()),
        Class::Qm => amount(state.entities().queue(key).greatest()),
        Class::Qz => amount(state.entities().queue(key).zero_entries()),
        Class::X => Ok(state.entities().savevalue(key).unwrap_or(Val::ZERO)),
        Class::Ls => amount(u64::from(state.entities().is_set(key))),
        Class::Ch => amount(state.linked().len(key) as u64),
        Class::Cc => amount(state.linked().entries(key)),
        _ => Err(Halt::stop(Stop::Range)),
    }
}

// Of a storage.
fn of_storage(state: &State, class: Class, of: &Subject) -> Result<Val, Halt>
    ensures { Comes (defined_prog of.now (λ key. storage_value state.now class key)) result }
{
    match of {
        Subject::Name(name) => storage_value(state, class, &Key::Defined(name.clone()?)),
        _ => Err(Halt::stop(Stop::Range)),
    }
}

fn storage_value(state: &State, class: Class, key: &Key) -> Result<Val, Halt>
    ensures { Comes (storage_value state.now class key.now) result }
{
    let storage = state.entities().storage(key);
    match class {
        Class::S => amount(storage.level().content()),
        Class::Sc => amount(storage.entries()),
        Class::Sm => amount(storage.greatest()),
        _ => Err(Halt::stop(Stop::Range)),
    }
}

// Of a table.
fn of_table(state: &State, of: &Subject) -> Result<Val, Halt>
    ensures { Comes (defined_prog of.now (λ key. table_value state.now key)) result }
{
    match of {
        Subject::Name(name) => {
            let key = Key::Defined(name.clone()?);
            amount(state.entities().tables().count(&key) as u64)
        }
        _ => Err(Halt::stop(Stop::Range)),
    }
}

// The units of a storage that are left.
fn left(context: Context, notes: &mut Notes, of: &Subject) -> Result<Val, Halt>
    ensures { DecidesIn context.entry (λ s q. left_prog s of.now) result notes.old notes.new }
{
    match of {
        Subject::Name(name) => {
            let capacity = ask_capacity(context.run.version, notes, name)?;
            units_left(context.state, capacity, &Key::Defined(name.clone()?))
        }
        _ => Err(Halt::stop(Stop::Range)),
    }
}

// Of so many units those that are not in use.
fn units_left(state: &State, capacity: u64, key: &Key) -> Result<Val, Halt>
    ensures { Comes (units_left state.now key.now capacity) result }
{
    let in_use = state.entities().storage(key).level().content();
    amount(capacity.saturating_sub(in_use))
}

// Of a block.
fn of_block(context: Context, notes: &mut Notes, class: Class, of: &Subject) -> Result<Val, Halt>
    ensures { DecidesIn context.entry (λ s q. block_count of.now (λ id. block_value s class id))
        result notes.old notes.new }
{
    match of {
        Subject::Name(name) => {
            let id = ask_label(context.run.version, notes, name)?;
            counted(context.state, class, id)
        }
        _ => Err(Halt::stop(Stop::Range)),
    }
}

fn counted(state: &State, class: Class, id: Option<StatementId>) -> Result<Val, Halt>
    ensures { Comes (counted id (λ id. block_value state.now class id)) result }
{
    match id {
        Some(id) => block_value(state, class, id),
        None => Err(Halt::stop(Stop::Range)),
    }
}

fn block_value(state: &State, class: Class, id: StatementId) -> Result<Val, Halt>
    ensures { Comes (block_value state.now class id) result }
{
    match class {
        Class::N => amount(state.count(id).entries),
        Class::W => amount(state.count(id).content),
        _ => Err(Halt::stop(Stop::Range)),
    }
}

// The value of a parameter, which is to be there.
#[inline(always)]
fn value_held(value: Option<Val>) -> Result<Val, Halt>
    ensures { Comes (value_held value) result }
{
    match value {
        Some(value) => Ok(value),
        None => Err(Halt::stop(Stop::NoParameter)),
    }
}

// A number of the state as a value, where it is one.
fn amount(number: u64) -> Result<Val, Halt>
    ensures { Comes (amount number) result }
{
    if number > 1_000_000_000 {
        return Err(Halt::stop(Stop::Range));
    }
    match Val::new(number as i64) {
        Some(value) => Ok(value),
        None => Err(Halt::stop(Stop::Range)),
    }
}

// 1 while a facility is owned, else 0.
fn owned(owner: Option<u64>) -> u64
    ensures { result ≡ owned owner }
{
    match owner {
        Some(_) => 1,
        None => 0,
    }
}

// The facility, the queue, the savevalue, the switch, the user chain or the parameter that an attribute is of.
pub fn subject(run: Run, notes: &mut Notes, of: &Subject) -> Result<Key, Halt>
    ensures { Decides run.entry.version.now run.entry.seed (subject_prog of.now) result notes.old notes.new }
{
    match of {
        Subject::Own => Err(Halt::stop(Stop::Range)),
        Subject::Number(number) => key_of_number(*number),
        Subject::Name(name) => {
            let number = ask_number(run.version, notes, name)?;
            key_named(name, number)
        }
    }
}

// The key of the entity with a name, or with the number that the name stands for.
pub(crate) fn key_named(name: &Name, number: Option<Val>) -> Result<Key, Halt>
    ensures { Comes (named name.now number) result }
{
    match number {
        Some(number) => key_numbered(number),
        None => Ok(Key::Named(name.clone()?)),
    }
}

// The key of the entity with a number, from 1.
#[inline(always)]
pub(crate) fn key_numbered(number: Val) -> Result<Key, Halt>
    ensures { Comes (numbered number) result }
{
    if number.get() < 1 {
        return Err(Halt::stop(Stop::Range));
    }
    Ok(Key::Num(number.magnitude() as u32))
}

// The key of the entity whose number an attribute names, from 1.
fn key_of_number(number: u32) -> Result<Key, Halt>
    ensures { Comes (subject_prog (subjects.Number number)) result }
{
    if number < 1 {
        return Err(Halt::stop(Stop::Range));
    }
    Ok(Key::Num(number))
}

// A random number, 0 to 999, from the stream that an attribute is of.
fn random(run: Run, notes: &mut Notes, of: &Subject) -> Result<Val, Halt>
    ensures { Decides run.entry.version.now run.entry.seed (random_prog of.now) result notes.old notes.new }
{
    let number = drawn(run, notes, of)?;
    Ok(thousandth(number))
}

// A random number, as a part of a million, from the stream that an attribute is of.
pub fn random_part(run: Run, notes: &mut Notes, of: &Subject) -> Result<Millionths, Halt>
    ensures { Decides run.entry.version.now run.entry.seed (random_part of.now) result notes.old notes.new }
{
    let number = drawn(run, notes, of)?;
    Ok(part(number))
}

// The number that is drawn from the stream that an attribute is of.
fn drawn(run: Run, notes: &mut Notes, of: &Subject) -> Result<u32, Halt>
    ensures { Decides run.entry.version.now run.entry.seed (drawn_prog of.now) result notes.old notes.new }
{
    match of {
        Subject::Number(j) if 1 <= *j && *j <= 7 => draw(run, notes, *j as usize),
        _ => Err(Halt::stop(Stop::Range)),
    }
}

// A number that was drawn, as a part of a million.
fn part(number: u32) -> Millionths
    ensures { result ≡ pos (millionths number) }
{
    Millionths::part(millionths(number) as u32)
}

// A number that was drawn, as a random number from 0 to 999.
fn thousandth(number: u32) -> Val
    ensures { result ≡ pos (thousandth number) }
{
    let thousandth = u64::from(number.saturating_sub(1)) * 1_000 / 2_147_483_646;
    match Val::new(thousandth as i64) {
        Some(value) => value,
        None => unreachable!(),
    }
}
