ghost use Rattle.std.specs.Prelude.{◌≡◌, ◌<◌, ◌≤◌, ◌++◌, ◌∷◌, [], map, length, vec_len, vec_capacity};
ghost use Rattle.lane_ssa.specs.Bound.{IsBound, IsSymbolOf};
ghost use Rattle.lane_ssa.specs.Views.{instr_view};

use crate::instr::Instr;
use ion_symtab::SymTab;

/// The number of the name that the instruction asks for, if it asks for one and the table has it.
fn symbol_of(instr: &Instr, table: &SymTab<'_>) -> Option<u32>
    ensures { IsSymbolOf table.now (instr_view instr.now) result }
{
    match instr {
        Instr::Field { name, .. } => table.number_of(name.as_str()),
        _ => None,
    }
}

/// Adds a number, for which there is room.
fn put_symbol(symbols: &mut Vec<Option<u32>>, symbol: Option<u32>)
    requires { vec_len symbols.old < vec_capacity symbols.old }
    ensures items { symbols.new.items ≡ symbols.old.items ++ symbol ∷ [] }
    ensures room { vec_capacity symbols.old ≤ vec_capacity symbols.new }
{
    match symbols.push(symbol) {
        Ok(()) => {}
        Err(_) => unreachable!(),
    }
}

/// The numbers of the names that the instructions ask for.
pub(crate) fn bind_all(instrs: &[Instr], table: &SymTab<'_>, symbols: &mut Vec<Option<u32>>)
    requires room { length instrs.now ≤ vec_capacity symbols.old }
    ensures bound { IsBound table.now (map instr_view instrs.now) symbols.new.items }
    ensures room { length instrs.now ≤ vec_capacity symbols.new }
{
    symbols.clear();
    for instr in instrs {
        put_symbol(symbols, symbol_of(instr, table));
    }
}
