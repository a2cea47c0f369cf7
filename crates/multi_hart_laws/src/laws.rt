//! Laws of a hart that runs alone, each the contract of a function that does nothing.

ghost use Rattle.std.specs.Prelude.{◌≡◌, ◌⊎◌, ◌==◌, if◌then◌else◌, ◌<◌, ◌≤◌, ◌+◌, ◌*◌, ◌/◌, ◌%◌, ◌^◌, ◌++◌, ◌∷◌, [], ℕ};
ghost use Rattle.std.specs.Prelude.{suc, ℤ, List, Some, length, slice_get, min, true, false};
ghost use Rattle.rv_insn.specs.declared.instructions.Insn.{Insn};
ghost use Rattle.rv_insn.specs.declared.instructions.Insn.TheVariants.{Lui, AluImm, Shift, Alu, Load, Store, Jal};
ghost use Rattle.rv_insn.specs.declared.instructions.Insn.TheVariants.{Branch, Vector};
ghost use Rattle.rv_insn.specs.declared.vector_instructions.VectorInsn.TheVariants.{Vsetvli, Vsetivli, ArithmeticVv};
ghost use Rattle.rv_insn.specs.declared.vector_instructions.VectorInsn.TheVariants.{ArithmeticVx, ArithmeticVi};
ghost use Rattle.rv_insn.specs.declared.vector_instructions.VectorInsn.TheVariants.{ShiftVi, MultiplyVv, MultiplyVx};
ghost use Rattle.rv_insn.specs.declared.vector_instructions.VectorInsn.TheVariants.{MoveVv, MoveVx, MoveVi};
ghost use Rattle.rv_insn.specs.declared.vector_instructions.VectorInsn.TheVariants.{MoveToScalar};
ghost use Rattle.rv_insn.specs.declared.vector_instructions.VectorInsn.TheVariants.{ElementNumbers, CompareVv};
ghost use Rattle.rv_insn.specs.declared.vector_instructions.VectorInsn.TheVariants.{CompareVx, CompareVi, MergeVv};
ghost use Rattle.rv_insn.specs.declared.vector_instructions.VectorInsn.TheVariants.{MergeVx, MergeVi, LoadElements};
ghost use Rattle.rv_insn.specs.declared.vector_instructions.VectorInsn.TheVariants.{StoreElements, ExtendBytes};
ghost use Rattle.rv_insn.specs.declared.vector_instructions.Addressing.{Addressing};
ghost use Rattle.rv_insn.specs.declared.vector_instructions.Addressing.TheVariants.{UnitStride};
ghost use Rattle.rv_insn.specs.declared.vector_operations.ElementWidth.TheVariants.{Bits8, Bits32};
ghost use Rattle.multi_hart_laws.specs.LaneMemory.{AllReadable, AllWritable, accesses_to, stored_lanes, offset_at};
ghost use Rattle.multi_hart_laws.specs.LaneMemory.{OffsetsFit};
ghost use Rattle.rv_insn.specs.declared.vector_operations.CompareVvOp.{CompareVvOp};
ghost use Rattle.rv_insn.specs.declared.vector_operations.CompareVxOp.{CompareVxOp};
ghost use Rattle.rv_insn.specs.declared.vector_operations.CompareViOp.{CompareViOp};
ghost use Rattle.rv_insn.specs.declared.vector_operations.ArithmeticVvOp.{ArithmeticVvOp};
ghost use Rattle.rv_insn.specs.declared.vector_operations.ArithmeticVxOp.{ArithmeticVxOp};
ghost use Rattle.rv_insn.specs.declared.vector_operations.ArithmeticViOp.{ArithmeticViOp};
ghost use Rattle.rv_insn.specs.declared.vector_operations.ShiftViOp.{ShiftViOp};
ghost use Rattle.rv_insn.specs.declared.vector_operations.MultiplyOp.{MultiplyOp};
ghost use Rattle.vector_unit.specs.Operations.{arithmetic_vv, arithmetic_vx, arithmetic_vi, shift_vi, multiply};
ghost use Rattle.vector_unit.specs.Operations.{compare_vv, compare_vx, compare_vi};
ghost use Rattle.lanes.specs.Words.{wrapped, add};
ghost use Rattle.vector_unit.specs.Vector.{is_supported, most_elements, width_of, group_of};
ghost use Rattle.rv_insn.specs.declared.operations.AluImmOp.{AluImmOp};
ghost use Rattle.rv_insn.specs.declared.operations.ShiftOp.{ShiftOp};
ghost use Rattle.rv_insn.specs.declared.operations.AluOp.{AluOp};
ghost use Rattle.rv_insn.specs.declared.operations.BranchOp.{BranchOp};
ghost use Rattle.rv_insn.specs.declared.operations.LoadOp.{LoadOp};
ghost use Rattle.rv_insn.specs.declared.operations.StoreOp.{StoreOp};
ghost use Rattle.multi_hart.specs.Decoding.{decoded};
ghost use Rattle.memory.specs.Access.{text_start};
ghost use Rattle.memory.specs.Access.{Byte, Word, touched, number_in};
ghost use Rattle.hart_core.specs.Scalar.{one_if, extended, plus, computed, computed_with_immediate, shifted, is_taken};
ghost use Rattle.hart_core.specs.Scalar.{load_size, loaded, store_size, kept};
ghost use Rattle.hart_core.specs.Scalar.{one_access, offset_from};
ghost use Rattle.multi_hart_laws.specs.Groups.{GroupHolds, OthersStay, SizeStays, LanesGiven};
ghost use Rattle.multi_hart_laws.specs.FirstGroup.{AnyLanesGiven, GroupsHold, IsAnyGroup, held, write_group};
ghost use Rattle.multi_hart_laws.specs.Alone.{World, Says};
ghost use Rattle.multi_hart.specs.Run.{is_in};
ghost use Rattle.multi_hart_laws.specs.Paths.{update, Path, Block, Line, Writes, Readable, Writable, stored_at};
ghost use Rattle.multi_hart_laws.specs.Paths.{configure, lane, bit, vl_number, write_lanes, write_bits, byte_of};
ghost use Rattle.multi_hart_laws.specs.Paths.{write_bytes, LanesConfigured, IsGroup};

/// A word of a text of any length is at its address.
pub fn words_stand()
    ensures { (text : List ℕ) (i word : ℕ) (insn : Insn) → slice_get text i ≡ Some word → decoded word ≡ Some insn
        → Says text (text_start + 4 * i) insn }
{}

/// Paths, blocks and lines of code follow one another, a path that leads back to where it began goes
/// round and round, and what is written on a part is written on the whole.
pub fn paths_follow()
    ensures paths { (w : World) (a b c n k : ℕ) (f g e : ℕ → ℕ) (m m1 m2 : List ℕ) → Path w a b n f m g m1
        → Path w b c k g m1 e m2 → Path w a c (n + k) f m e m2 }
    ensures blocks { (w : World) (is js : List Insn) (n k : ℕ) (f g e : ℕ → ℕ) (m m1 m2 : List ℕ)
        → Block w is n f m g m1 → Block w js k g m1 e m2 → Block w (is ++ js) (n + k) f m e m2 }
    ensures lines { (w : World) (is js : List Insn) (f g e : ℕ → ℕ) (m m1 m2 : List ℕ) → Line w is f m g m1
        → Line w js g m1 e m2 → Line w (is ++ js) f m e m2 }
    ensures rounds { (w : World) (at c : ℕ) (F : ℕ → ℕ → ℕ) (M : ℕ → List ℕ) (n : ℕ)
        → ((i : ℕ) → i < n → Path w at at c (F i) (M i) (F (suc i)) (M (suc i)))
        → Path w at at (n * c) (F 0) (M 0) (F n) (M n) }
    ensures first { (w : World) (at n k : ℕ) (f : ℕ → ℕ) (m : List ℕ) (a : ℕ) → Writes w at n f m a
        → Writes w at (n + k) f m a }
    ensures later { (w : World) (at to n k : ℕ) (f g : ℕ → ℕ) (m m1 : List ℕ) (a : ℕ) → Path w at to n f m g m1
        → Writes w to k g m1 a → Writes w at (n + k) f m a }
{}

/// Instructions that give a register a number and touch no memory.
pub fn registers_are_given()
    ensures alu { (w : World) (f : ℕ → ℕ) (m : List ℕ) → length m ≡ w.size → (op : AluOp) (r a b : ℕ) → 1 ≤ r → r < 32
        → a < 32 → b < 32 → Line w (Alu op r a b ∷ []) f m (update f r (computed op (f a) (f b))) m }
    ensures alu_imm { (w : World) (f : ℕ → ℕ) (m : List ℕ) → length m ≡ w.size → (op : AluImmOp) (r a : ℕ) (z : ℤ)
        → 1 ≤ r → r < 32 → a < 32 → Line w (AluImm op r a z ∷ []) f m
        (update f r (computed_with_immediate op (f a) (extended z))) m }
    ensures shift { (w : World) (f : ℕ → ℕ) (m : List ℕ) → length m ≡ w.size → (op : ShiftOp) (r a n : ℕ) → 1 ≤ r
        → r < 32 → a < 32 → Line w (Shift op r a n ∷ []) f m (update f r (shifted op (f a) n)) m }
    ensures lui { (w : World) (f : ℕ → ℕ) (m : List ℕ) → length m ≡ w.size → (r n : ℕ) → 1 ≤ r → r < 32
        → Line w (Lui r n ∷ []) f m (update f r (n * 2 ^ 12)) m }
{}

/// Numbers of data, of any size, that are loaded and stored.
pub fn numbers_are_moved()
    ensures load { (w : World) (f : ℕ → ℕ) (m : List ℕ) → length m ≡ w.size → (op : LoadOp) (r b a : ℕ) (z : ℤ) → 1 ≤ r
        → r < 32 → b < 32 → plus (f b) z ≡ a → Readable w (load_size op) a
        → Line w (Load op r b z ∷ []) f m (update f r (loaded op (number_in w.text m (load_size op) a))) m }
    ensures store { (w : World) (f : ℕ → ℕ) (m : List ℕ) → length m ≡ w.size → (op : StoreOp) (b v a : ℕ) (z : ℤ)
        → b < 32 → v < 32 → plus (f b) z ≡ a → Writable w (store_size op) a
        → Line w (Store op b v z ∷ []) f m f (stored_at m (store_size op) a (kept op (f v))) }
    ensures writes { (w : World) (f : ℕ → ℕ) (m : List ℕ) → length m ≡ w.size
        → (op : StoreOp) (b v a : ℕ) (z : ℤ) (at c : ℕ) → b < 32 → plus (f b) z ≡ a → Writable w (store_size op) a
        → Says w.text at (Store op b v z) → is_in c (touched (one_access (store_size op) a)) ≡ true
        → Writes w at 1 f m c }
{}

/// Jumps that keep no link, and branches.
pub fn jumps_lead_on()
    ensures jump { (w : World) (f : ℕ → ℕ) (m : List ℕ) → length m ≡ w.size → (at to : ℕ) (z : ℤ)
        → Says w.text at (Jal 0 z) → offset_from at z ≡ to → to % 4 ≡ 0 → Path w at to 1 f m f m }
    ensures taken { (w : World) (f : ℕ → ℕ) (m : List ℕ) → length m ≡ w.size → (op : BranchOp) (at to a b : ℕ) (z : ℤ)
        → a < 32 → b < 32 → is_taken op (f a) (f b) ≡ true → Says w.text at (Branch op a b z) → offset_from at z ≡ to
        → to % 4 ≡ 0 → Path w at to 1 f m f m }
    ensures passed { (w : World) (f : ℕ → ℕ) (m : List ℕ) → length m ≡ w.size → (op : BranchOp) (at a b : ℕ) (z : ℤ)
        → a < 32 → b < 32 → is_taken op (f a) (f b) ≡ false → Says w.text at (Branch op a b z) → at + 4 < 2 ^ 32
        → Path w at (at + 4) 1 f m f m }
{}

/// Configurations that keep no count in a register, of a vtype that is supported.
pub fn lengths_are_set()
    ensures at { (w : World) (f : ℕ → ℕ) (m : List ℕ) → length m ≡ w.size → (count vtype : ℕ) → is_supported vtype
        ≡ true → Line w (Vector (Vsetivli 0 count vtype) ∷ []) f m (configure f (min count (most_elements vtype)) vtype)
        m }
    ensures by { (w : World) (f : ℕ → ℕ) (m : List ℕ) → length m ≡ w.size → (b vtype : ℕ) → 1 ≤ b → b < 32
        → is_supported vtype ≡ true → Line w (Vector (Vsetvli 0 b vtype) ∷ []) f m
        (configure f (min (f b) (most_elements vtype)) vtype) m }
    ensures lanes { (f : ℕ → ℕ) (n vtype : ℕ) → is_supported vtype ≡ true → width_of vtype ≡ 32
        → n ≤ most_elements vtype → LanesConfigured (configure f n vtype) (group_of vtype) }
{}

/// A group of vector registers holds the numbers of 32 bits that were written to it; all others stay.
pub fn groups_hold_lanes()
    ensures lanes { GroupHolds }
    ensures others { OthersStay }
    ensures size { SizeStays }
{}

/// What a vector row that writes lanes of 32 bits, unmasked and in groups of up to four registers, leaves
/// of the numbers that a hart holds.
pub fn lanes_are_given()
    ensures { LanesGiven }
{}

/// Operations on each lane of a group and the lane of another one.
pub fn lanes_are_paired()
    ensures arithmetic { (w : World) (f : ℕ → ℕ) (m : List ℕ) → length m ≡ w.size → (g : ℕ) → LanesConfigured f g
        → (o : ArithmeticVvOp) (d a b : ℕ) → IsGroup g d → IsGroup g a → IsGroup g b
        → Line w (Vector (ArithmeticVv o d a b true) ∷ []) f m
        (write_lanes f d (f vl_number) (λ k. arithmetic_vv o 32 (f (lane a k)) (f (lane b k)))) m }
    ensures multiplication { (w : World) (f : ℕ → ℕ) (m : List ℕ) → length m ≡ w.size → (g : ℕ) → LanesConfigured f g
        → (o : MultiplyOp) (d a b : ℕ) → IsGroup g d → IsGroup g a → IsGroup g b
        → Line w (Vector (MultiplyVv o d a b true) ∷ []) f m
        (write_lanes f d (f vl_number) (λ k. multiply o 32 (f (lane a k)) (f (lane b k)))) m }
{}

/// Operations on each lane of a group and one number: of a register, or of the word.
pub fn lanes_meet_a_number()
    ensures arithmetic { (w : World) (f : ℕ → ℕ) (m : List ℕ) → length m ≡ w.size → (g : ℕ) → LanesConfigured f g
        → (o : ArithmeticVxOp) (d a r : ℕ) → IsGroup g d → IsGroup g a → r < 32
        → Line w (Vector (ArithmeticVx o d a r true) ∷ []) f m
        (write_lanes f d (f vl_number) (λ k. arithmetic_vx o 32 (f (lane a k)) (f r % 2 ^ 32))) m }
    ensures multiplication { (w : World) (f : ℕ → ℕ) (m : List ℕ) → length m ≡ w.size → (g : ℕ) → LanesConfigured f g
        → (o : MultiplyOp) (d a r : ℕ) → IsGroup g d → IsGroup g a → r < 32
        → Line w (Vector (MultiplyVx o d a r true) ∷ []) f m
        (write_lanes f d (f vl_number) (λ k. multiply o 32 (f (lane a k)) (f r % 2 ^ 32))) m }
    ensures immediate { (w : World) (f : ℕ → ℕ) (m : List ℕ) → length m ≡ w.size → (g : ℕ) → LanesConfigured f g
        → (o : ArithmeticViOp) (d a : ℕ) (z : ℤ) → IsGroup g d → IsGroup g a
        → Line w (Vector (ArithmeticVi o d a z true) ∷ []) f m
        (write_lanes f d (f vl_number) (λ k. arithmetic_vi o 32 (f (lane a k)) (wrapped 32 z))) m }
    ensures shift { (w : World) (f : ℕ → ℕ) (m : List ℕ) → length m ≡ w.size → (g : ℕ) → LanesConfigured f g
        → (o : ShiftViOp) (d a n : ℕ) → IsGroup g d → IsGroup g a
        → Line w (Vector (ShiftVi o d a n true) ∷ []) f m
        (write_lanes f d (f vl_number) (λ k. shift_vi o 32 (f (lane a k)) n)) m }
{}

/// Lanes that are copied, lanes that all get one number, and lanes that get their own.
pub fn lanes_are_copied()
    ensures lanes { (w : World) (f : ℕ → ℕ) (m : List ℕ) → length m ≡ w.size → (g : ℕ) → LanesConfigured f g → (d a : ℕ)
        → IsGroup g d → IsGroup g a → Line w (Vector (MoveVv d a) ∷ []) f m
        (write_lanes f d (f vl_number) (λ k. f (lane a k))) m }
    ensures number { (w : World) (f : ℕ → ℕ) (m : List ℕ) → length m ≡ w.size → (g : ℕ) → LanesConfigured f g
        → (d r : ℕ) → IsGroup g d → r < 32
        → Line w (Vector (MoveVx d r) ∷ []) f m (write_lanes f d (f vl_number) (λ k. f r % 2 ^ 32)) m }
    ensures immediate { (w : World) (f : ℕ → ℕ) (m : List ℕ) → length m ≡ w.size → (g : ℕ) → LanesConfigured f g
        → (d : ℕ) (z : ℤ) → IsGroup g d
        → Line w (Vector (MoveVi d z) ∷ []) f m (write_lanes f d (f vl_number) (λ k. wrapped 32 z)) m }
    ensures numbers { (w : World) (f : ℕ → ℕ) (m : List ℕ) → length m ≡ w.size → (g : ℕ) → LanesConfigured f g → (d : ℕ)
        → IsGroup g d → Line w (Vector (ElementNumbers d true) ∷ []) f m (write_lanes f d (f vl_number) (λ k. k)) m }
{}

/// The first lane of a vector register, which a register is given.
pub fn first_lanes_are_read()
    ensures { (w : World) (f : ℕ → ℕ) (m : List ℕ) → length m ≡ w.size → (g : ℕ) → LanesConfigured f g
        → (r u : ℕ) → 1 ≤ r → r < 32 → 1 ≤ u → u < 32
        → Line w (Vector (MoveToScalar r u) ∷ []) f m (update f r (f (lane u 0))) m }
{}

/// Tests of lanes, into the mask: each is a bit that is 1 where it holds.
pub fn lanes_are_compared()
    ensures lanes { (w : World) (f : ℕ → ℕ) (m : List ℕ) → length m ≡ w.size → (g : ℕ) → LanesConfigured f g
        → (o : CompareVvOp) (a b : ℕ) → IsGroup g a → IsGroup g b
        → Line w (Vector (CompareVv o 0 a b true) ∷ []) f m
        (write_bits f (f vl_number) (λ k. one_if (compare_vv o 32 (f (lane a k)) (f (lane b k))))) m }
    ensures number { (w : World) (f : ℕ → ℕ) (m : List ℕ) → length m ≡ w.size → (g : ℕ) → LanesConfigured f g
        → (o : CompareVxOp) (a r : ℕ) → IsGroup g a → r < 32
        → Line w (Vector (CompareVx o 0 a r true) ∷ []) f m
        (write_bits f (f vl_number) (λ k. one_if (compare_vx o 32 (f (lane a k)) (f r % 2 ^ 32)))) m }
    ensures immediate { (w : World) (f : ℕ → ℕ) (m : List ℕ) → length m ≡ w.size → (g : ℕ) → LanesConfigured f g
        → (o : CompareViOp) (a : ℕ) (z : ℤ) → IsGroup g a
        → Line w (Vector (CompareVi o 0 a z true) ∷ []) f m
        (write_bits f (f vl_number) (λ k. one_if (compare_vi o 32 (f (lane a k)) (wrapped 32 z)))) m }
{}

/// Lanes that are chosen by the mask: the second where its bit isn't 0.
pub fn lanes_are_chosen()
    ensures lanes { (w : World) (f : ℕ → ℕ) (m : List ℕ) → length m ≡ w.size → (g : ℕ) → LanesConfigured f g
        → (d a b : ℕ) → IsGroup g d → IsGroup g a → IsGroup g b
        → Line w (Vector (MergeVv d a b) ∷ []) f m
        (write_lanes f d (f vl_number) (λ k. if f (bit k) == 0 then f (lane a k) else f (lane b k))) m }
    ensures number { (w : World) (f : ℕ → ℕ) (m : List ℕ) → length m ≡ w.size → (g : ℕ) → LanesConfigured f g
        → (d a r : ℕ) → IsGroup g d → IsGroup g a → r < 32
        → Line w (Vector (MergeVx d a r) ∷ []) f m
        (write_lanes f d (f vl_number) (λ k. if f (bit k) == 0 then f (lane a k) else f r % 2 ^ 32)) m }
    ensures immediate { (w : World) (f : ℕ → ℕ) (m : List ℕ) → length m ≡ w.size → (g : ℕ) → LanesConfigured f g
        → (d a : ℕ) (z : ℤ) → IsGroup g d → IsGroup g a
        → Line w (Vector (MergeVi d a z) ∷ []) f m
        (write_lanes f d (f vl_number) (λ k. if f (bit k) == 0 then f (lane a k) else wrapped 32 z)) m }
{}

/// Lanes that are stored: word after word, a number of bytes apart, or by offsets.
pub fn lanes_are_stored()
    ensures memory { (w : World) (f : ℕ → ℕ) (m : List ℕ) → length m ≡ w.size → (g : ℕ) → LanesConfigured f g
        → (addressing : Addressing) (u b : ℕ) (a : ℕ → ℕ) → IsGroup g u → b < 32 → OffsetsFit g addressing
        → ((k : ℕ) → k < f vl_number → add 32 (f b) (offset_at f addressing k) ≡ a k)
        → AllWritable w Word (f vl_number) a → Line w (Vector (StoreElements Bits32 u b addressing true) ∷ []) f m f
        (stored_lanes m Word (f vl_number) a (λ k. f (lane u k))) }
    ensures writes { (w : World) (f : ℕ → ℕ) (m : List ℕ) → length m ≡ w.size → (g : ℕ) → LanesConfigured f g
        → (addressing : Addressing) (u b : ℕ) (a : ℕ → ℕ) → IsGroup g u → b < 32 → OffsetsFit g addressing
        → ((k : ℕ) → k < f vl_number → add 32 (f b) (offset_at f addressing k) ≡ a k)
        → AllWritable w Word (f vl_number) a → (at y : ℕ)
        → Says w.text at (Vector (StoreElements Bits32 u b addressing true))
        → is_in y (touched (accesses_to Word (f vl_number) a)) ≡ true → Writes w at 1 f m y }
{}

/// Lanes that are loaded: word after word, a number of bytes apart, or by offsets.
pub fn lanes_are_loaded()
    ensures { (w : World) (f : ℕ → ℕ) (m : List ℕ) → length m ≡ w.size → (g : ℕ) → LanesConfigured f g
        → (addressing : Addressing) (d b : ℕ) (a : ℕ → ℕ) → IsGroup g d → b < 32 → OffsetsFit g addressing
        → ((k : ℕ) → k < f vl_number → add 32 (f b) (offset_at f addressing k) ≡ a k)
        → AllReadable w Word (f vl_number) a → Line w (Vector (LoadElements Bits32 d b addressing true) ∷ []) f m
        (write_lanes f d (f vl_number) (λ k. number_in w.text m Word (a k) % 2 ^ 32)) m }
{}

/// Bytes that are loaded one after the other, into one register: its other bytes stay.
pub fn bytes_are_loaded()
    ensures row { (w : World) (f : ℕ → ℕ) (m : List ℕ) → length m ≡ w.size → (g : ℕ) → LanesConfigured f g
        → (d b : ℕ) (a : ℕ → ℕ) → 1 ≤ d → d < 32 → b < 32 → ((k : ℕ) → k < f vl_number → add 32 (f b) k ≡ a k)
        → AllReadable w Byte (f vl_number) a → Line w (Vector (LoadElements Bits8 d b UnitStride true) ∷ []) f m
        (write_bytes f d (f vl_number) (λ k. number_in w.text m Byte (a k) % 256)) m }
    ensures bytes { (f : ℕ → ℕ) (d n : ℕ) (new : ℕ → ℕ) (k : ℕ) → k < n → n ≤ 16 → ((i : ℕ) → i < n → new i < 256)
        → byte_of (write_bytes f d n new (lane d (k / 4))) (k % 4) ≡ new k }
    ensures others { (f : ℕ → ℕ) (d n : ℕ) (new : ℕ → ℕ) (q : ℕ) → (q < lane d 0) ⊎ (lane d 4 ≤ q)
        → write_bytes f d n new q ≡ f q }
{}

/// Bytes of a register that become lanes: byte k is a part of its lane k / 4.
pub fn bytes_are_extended()
    ensures { (w : World) (f : ℕ → ℕ) (m : List ℕ) → length m ≡ w.size → (g : ℕ) → LanesConfigured f g → (d u : ℕ)
        → IsGroup g d → 1 ≤ u → u < 32 → Line w (Vector (ExtendBytes d u true) ∷ []) f m
        (write_lanes f d (f vl_number) (λ k. byte_of (f (lane u (k / 4))) (k % 4))) m }
{}

/// Rows on groups that begin at any register, v0 included, whose lanes its bits spell: what they leave, and what a
/// group then holds.
pub fn any_group_is_written()
    ensures given { AnyLanesGiven }
    ensures held { GroupsHold }
    ensures arithmetic { (w : World) (f : ℕ → ℕ) (m : List ℕ) → length m ≡ w.size → (g : ℕ) → LanesConfigured f g
        → (o : ArithmeticVvOp) (d a b : ℕ) → IsAnyGroup g d → IsAnyGroup g a → IsAnyGroup g b
        → Line w (Vector (ArithmeticVv o d a b true) ∷ []) f m
        (write_group f d (f vl_number) (λ k. arithmetic_vv o 32 (held f a k) (held f b k))) m }
    ensures number { (w : World) (f : ℕ → ℕ) (m : List ℕ) → length m ≡ w.size → (g : ℕ) → LanesConfigured f g
        → (o : ArithmeticVxOp) (d a r : ℕ) → IsAnyGroup g d → IsAnyGroup g a → r < 32
        → Line w (Vector (ArithmeticVx o d a r true) ∷ []) f m
        (write_group f d (f vl_number) (λ k. arithmetic_vx o 32 (held f a k) (f r % 2 ^ 32))) m }
    ensures multiplication { (w : World) (f : ℕ → ℕ) (m : List ℕ) → length m ≡ w.size → (g : ℕ) → LanesConfigured f g
        → (o : MultiplyOp) (d a r : ℕ) → IsAnyGroup g d → IsAnyGroup g a → r < 32
        → Line w (Vector (MultiplyVx o d a r true) ∷ []) f m
        (write_group f d (f vl_number) (λ k. multiply o 32 (held f a k) (f r % 2 ^ 32))) m }
    ensures shift { (w : World) (f : ℕ → ℕ) (m : List ℕ) → length m ≡ w.size → (g : ℕ) → LanesConfigured f g
        → (o : ShiftViOp) (d a n : ℕ) → IsAnyGroup g d → IsAnyGroup g a
        → Line w (Vector (ShiftVi o d a n true) ∷ []) f m
        (write_group f d (f vl_number) (λ k. shift_vi o 32 (held f a k) n)) m }
    ensures numbers { (w : World) (f : ℕ → ℕ) (m : List ℕ) → length m ≡ w.size → (g : ℕ) → LanesConfigured f g → (d : ℕ)
        → IsAnyGroup g d → Line w (Vector (ElementNumbers d true) ∷ []) f m (write_group f d (f vl_number) (λ k. k)) m }
{}
