// How a settings file is read.
ghost use Rattle.std.specs.Prelude.{◌≡◌, ◌≢◌, ◌≤◌, ◌<◌, ◌^◌, ◌↔◌, Err, IfSome, IfOk, IfErr, length};
ghost use Rattle.std.specs.Prelude.{string_bytes, option_map, bytes_eq, Some, None, Ok, pos};
ghost use Rattle.std.specs.List.{list_any};
ghost use Rattle.toml.specs.View.{view, table_view};
ghost use Rattle.toml.specs.Data.{no_members, get_member};
ghost use Rattle.toml.specs.Errors.{IsBlank};
ghost use Rattle.settings.specs.Keys.{key_name, form_of, HasForm};
ghost use Rattle.settings.specs.Changed.{changed_table};
ghost use Rattle.settings.specs.Tables.{number_of_form, number_beside, number_of, least_unknown};
ghost use Rattle.settings.specs.Tables.{is_unknown, values_of, whole_of_form};
ghost use Rattle.settings.specs.Answers.{longest_content, changed_values, checked_values};
ghost use Rattle.settings.specs.Answers.{judged_under, judged_values, settings_of, IsFaultOf};
ghost use Rattle.settings.specs.Answers.{judged_table, settings_under, usual_under, UnlessMemory};
ghost use Rattle.settings.specs.Allowed.{IsAllowed};

use crate::changes::Changes;
use crate::fault::SettingsFault;
use crate::key::{Form, Key};
use crate::values::Settings;
use base::{Name, NoMemory};
use std::alloc::Global;
use toml::{Table, Value};

// How many bytes a settings file may have.
const LONGEST_CONTENT: usize = 1 << 16;

// The value of a key.
fn value_at<'a>(table: &'a Table, key: Key) -> Option<&'a Value>
    ensures { option_map (λ v. view v.now) result ≡ get_member (key_name key)
        (table_view table.now) }
{
    table.get(key.name())
}

// The whole number that a value is, where it has the form.
fn whole_number(value: &Value, form: Form) -> Option<u64>
    ensures value { result ≡ number_of_form form (view value.now) }
    ensures form { IfSome result (HasForm form) }
{
    let whole = value.as_integer()?;
    if whole < 0 || !form.holds(whole.cast_unsigned()) {
        return None;
    }
    Some(whole.cast_unsigned())
}

// What a table gives for a key beside a tracking threshold: None where its value is no whole number
// of the key's form.
fn own_number(table: &Table, key: Key, tracking: u64) -> Option<u64>
    requires { tracking ≤ 2 ^ 32 }
    ensures value { result ≡ number_beside tracking (table_view table.now) key }
    ensures form { IfSome result (HasForm (form_of tracking key)) }
{
    let rule = key.rule(tracking);
    match value_at(table, key) {
        Some(value) => whole_number(value, rule.form),
        None => Some(rule.usual),
    }
}

// A number, where it has the form.
fn formed(number: u64, form: Form) -> Option<u64>
    ensures value { result ≡ whole_of_form form (pos number) }
    ensures form { IfSome result (HasForm form) }
{
    if form.holds(number) {
        Some(number)
    } else {
        None
    }
}

// What changes give for a key beside a tracking threshold, or else a table.
fn number(table: &Table, changes: &Changes, key: Key, tracking: u64) -> Option<u64>
    requires { tracking ≤ 2 ^ 32 }
    ensures value { result ≡ number_beside tracking (changed_table changes.now
        (table_view table.now)) key }
    ensures form { IfSome result (HasForm (form_of tracking key)) }
{
    match changes.of(key) {
        Some(number) => formed(number, key.rule(tracking).form),
        None => own_number(table, key, tracking),
    }
}

// The same beside their own tracking threshold, of a key whose form does not rest on it.
fn number_alone(table: &Table, changes: &Changes, key: Key) -> Option<u64>
    requires { key ≢ Key.Prediction }
    ensures value { result ≡ number_of (changed_table changes.now (table_view table.now)) key }
    ensures form { IfSome result (HasForm (form_of 0 key)) }
{
    number(table, changes, key, 0)
}

// The prediction threshold beside their tracking threshold.
fn prediction_beside(table: &Table, changes: &Changes, tracking: u64) -> Option<u64>
    requires own { number_of (changed_table changes.now (table_view table.now)) Key.Tracking
        ≡ Some tracking }
    requires small { tracking ≤ 2 ^ 32 }
    ensures value { result ≡ number_of (changed_table changes.now (table_view table.now))
        Key.Prediction }
    ensures form { IfSome result (HasForm (form_of tracking Key.Prediction)) }
{
    number(table, changes, Key::Prediction, tracking)
}

// The values of a table under changes, or the first key whose value is out of range.
fn judge_values(table: &Table, changes: &Changes) -> Result<Settings, Key>
    ensures value { result ≡ checked_values (changed_table changes.now (table_view table.now)) }
    ensures allowed { IfOk result IsAllowed }
{
    let Some(harts) = number_alone(table, changes, Key::Harts) else {
        return Err(Key::Harts);
    };
    let Some(memory) = number_alone(table, changes, Key::Memory) else {
        return Err(Key::Memory);
    };
    let Some(stack) = number_alone(table, changes, Key::Stack) else {
        return Err(Key::Stack);
    };
    let Some(tracking) = number_alone(table, changes, Key::Tracking) else {
        return Err(Key::Tracking);
    };
    let Some(prediction) = prediction_beside(table, changes, tracking) else {
        return Err(Key::Prediction);
    };
    let Some(report) = number_alone(table, changes, Key::Report) else {
        return Err(Key::Report);
    };
    let Some(quantum) = number_alone(table, changes, Key::Quantum) else {
        return Err(Key::Quantum);
    };
    let Some(budget) = number_alone(table, changes, Key::Budget) else {
        return Err(Key::Budget);
    };
    let Some(line) = number_alone(table, changes, Key::Line) else {
        return Err(Key::Line);
    };
    let Some(seed) = number_alone(table, changes, Key::Seed) else {
        return Err(Key::Seed);
    };
    Ok(Settings {
        harts: harts as u16,
        memory: memory as u32,
        stack: stack as u32,
        tracking,
        prediction,
        report,
        quantum: quantum as u32,
        budget,
        line: line as u32,
        seed: seed as u32,
    })
}

// Whether a name is one of some keys.
fn is_among(keys: &[Key], name: &str) -> bool
    ensures { result ≡ list_any (λ key. bytes_eq (key_name key) name.now) keys.now }
{
    keys.iter().any(|key| key.is_written(name))
}

// Whether a name is none of the ten keys.
fn is_unknown_name(name: &str) -> bool
    ensures { result ≡ is_unknown name.now }
{
    !is_among(&Key::all(), name)
}

// The least name of a table that is no key: its names ascend.
fn first_unknown(table: &Table) -> Option<&String>
    ensures { option_map (λ name. string_bytes name.now) result ≡ least_unknown
        (table_view table.now) }
{
    table.keys().find(|name| is_unknown_name(name.as_str()))
}

// The values of a table alone, or the first key whose value is out of range.
fn own_values(table: &Table) -> Result<Settings, Key>
    ensures value { result ≡ checked_values (table_view table.now) }
    ensures allowed { IfOk result IsAllowed }
{
    judge_values(table, &Changes::none())
}

// The values of a table alone, unless one is out of range.
fn judge_own(table: &Table) -> Result<Settings, SettingsFault>
    ensures value { result ≡ judged_values (table_view table.now) }
    ensures allowed { IfOk result IsAllowed }
{
    match own_values(table) {
        Ok(settings) => Ok(settings),
        Err(key) => Err(SettingsFault::OutOfRange(key)),
    }
}

// The values of a table under changes, or the first key whose value these put out of range.
fn judge_changed(table: &Table, changes: &Changes) -> Result<Settings, SettingsFault>
    ensures value { result ≡ changed_values (changed_table changes.now (table_view table.now)) }
    ensures allowed { IfOk result IsAllowed }
{
    match judge_values(table, changes) {
        Ok(settings) => Ok(settings),
        Err(key) => Err(SettingsFault::ChangedOutOfRange(key)),
    }
}

// The values of a table, or its first fault.
fn judge_table(alloc: Global, table: &Table) -> Result<Settings, SettingsFault>
    ensures accepted { IfOk result (λ settings. judged_table (table_view table.now) ≡ Ok settings) }
    ensures refused { IfErr result
        (λ fault. UnlessMemory fault (judged_table (table_view table.now) ≡ Err fault)) }
    ensures allowed { IfOk result IsAllowed }
    ensures known { least_unknown (table_view table.now) ≡ None
        → result ≢ Err SettingsFault.NoMemory }
{
    let Some(name) = first_unknown(table) else {
        return judge_own(table);
    };
    match Name::new(alloc, name.as_bytes()) {
        Ok(name) => Err(SettingsFault::UnknownKey(name)),
        Err(NoMemory) => Err(SettingsFault::NoMemory),
    }
}

// The values of a table under changes, or its first fault: its own come first.
fn judge_under(alloc: Global, table: &Table, changes: &Changes) -> Result<Settings, SettingsFault>
    ensures accepted { IfOk result
        (λ settings. judged_under changes.now (table_view table.now) ≡ Ok settings) }
    ensures refused { IfErr result
        (λ fault. UnlessMemory fault (judged_under changes.now (table_view table.now)
        ≡ Err fault)) }
    ensures allowed { IfOk result IsAllowed }
    ensures known { least_unknown (table_view table.now) ≡ None
        → result ≢ Err SettingsFault.NoMemory }
{
    match judge_table(alloc, table) {
        Ok(_) => judge_changed(table, changes),
        Err(fault) => Err(fault),
    }
}

impl Settings {
    /// The settings where no file says otherwise: each key has its usual value.
    pub fn usual() -> Settings
        ensures value { result ≡ values_of no_members }
        ensures allowed { IsAllowed result }
    {
        Settings {
            harts: 8,
            memory: 1 << 24,
            stack: 1 << 16,
            tracking: 16,
            prediction: 64,
            report: 100,
            quantum: 100,
            budget: 100_000_000,
            line: 64,
            seed: 0,
        }
    }

    /// The settings under changes where no file says otherwise, or the first key that is changed to
    /// a number out of its range.
    pub fn usual_under(alloc: Global, changes: &Changes) -> Result<Settings, SettingsFault>
        ensures value { result ≡ usual_under changes.now }
        ensures allowed { IfOk result IsAllowed }
    {
        judge_changed(&Table::new(alloc), changes)
    }

    /// The settings that the content of a file gives under changes, or the first fault: those of the
    /// content alone, in the order of `SettingsFault`, and then the first key whose value is out of
    /// range under the changes. Want of memory may come before any of them but the first.
    pub fn read(alloc: Global, content: &[u8], changes: &Changes) -> Result<Settings, SettingsFault>
        ensures accepted { IfOk result
            (λ settings. settings_under changes.now content.now ≡ Ok settings) }
        ensures refused { IfErr result
            (λ fault. UnlessMemory fault (settings_under changes.now content.now ≡ Err fault)) }
        ensures too_long { (result ≡ Err SettingsFault.TooLong)
            ↔ (longest_content < length content.now) }
        ensures allowed { IfOk result IsAllowed }
        // The content alone has each fault but one that only the changes bring.
        ensures blamed { IfErr result (IsFaultOf (settings_of content.now)) }
        // White space and comments alone take no memory.
        ensures blank { IsBlank content.now → result ≢ Err SettingsFault.NoMemory }
    {
        if content.len() > LONGEST_CONTENT {
            return Err(SettingsFault::TooLong);
        }
        match toml::table_from_slice(alloc, content) {
            Ok(table) => judge_under(alloc, &table, changes),
            Err(error) => {
                if error.is_memory() {
                    Err(SettingsFault::NoMemory)
                } else {
                    Err(SettingsFault::BadToml)
                }
            }
        }
    }
}
