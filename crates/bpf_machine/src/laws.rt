// What holds of programs and their ends.
ghost use Rattle.std.specs.Prelude.{◌≡◌, ◌≤◌, ◌↔◌, ℕ, List, length};
ghost use Rattle.bpf_code.specs.declared.instruction.Ins.{Ins};
ghost use Rattle.bpf_code.specs.Program.{WellFormed};
ghost use Rattle.bpf_code.specs.Steps.{Ends, start};
ghost use Rattle.bpf_machine.specs.Chains.{Chain};

/// A program that is accepted ends over each image, after at most as many steps as it has instructions.
pub fn every_program_ends()
    ensures { (program : List Ins) (image : List ℕ)
        → WellFormed program
        → (v : ℕ) × (n : ℕ) × (n ≤ length program) × Ends program image v n }
{}

/// A program ends in at most one way over an image.
pub fn ends_in_one_way()
    ensures { (program : List Ins) (image : List ℕ) (v w n m : ℕ)
        → Ends program image v n
        → Ends program image w m
        → (v ≡ w) × (n ≡ m) }
{}

/// A program ends with a verdict after n steps exactly where a chain of n steps leads to that verdict.
pub fn ends_by_steps()
    ensures { (program : List Ins) (image : List ℕ) (v n : ℕ) → (Ends program image v n) ↔ (Chain program image v n start) }
{}
