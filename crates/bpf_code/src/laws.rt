// What the layers above use of the table.
ghost use Rattle.std.specs.Prelude.{◌≡◌, ◌↔◌, ℕ, Some};
ghost use Rattle.bpf_code.specs.Table.{code_of, op_of};
ghost use Rattle.bpf_code.specs.declared.operation.Op.{Op};

/// A code has a row exactly where it is the row's code: `op_of` and `code_of` are one table read both ways.
pub fn a_row_has_one_code()
    ensures { (code : ℕ) (op : Op) → (op_of code ≡ Some op) ↔ (code ≡ code_of op) }
{}
