//! The vector instructions, as a hart executes them.

ghost use Rattle.std.specs.Prelude.{◌≡◌, ◌&&◌, not, None, Some, length, map, IfOk, OnOk, IfErr, OnErr, true, false};
ghost use Rattle.rv_insn.specs.declared.instructions.Insn.TheVariants as insns;
ghost use Rattle.memory.specs.Access.{put};
ghost use Rattle.memory.specs.Access.{first_fault, number_at, Reads, Writes, spread, touched};
ghost use Rattle.vector_unit.specs.Vector.{has_vill, is_illegal_configuration};
ghost use Rattle.vector_unit.specs.Vector.{asked_of, is_own, is_refused, vector_after};
ghost use Rattle.vector_unit.specs.Accesses.{active_numbers, addresses_by, loaded, spacing_of};
ghost use Rattle.hart_core.specs.VectorRows.{computed_by, configured_by};
ghost use Rattle.hart_core.specs.inner.Pieces.{accesses_of, is_access};
ghost use Rattle.hart_core.specs.HartState.{register, advanced, vectors_of, with_vectors};
ghost use Rattle.hart_core.specs.Turn.{fault, IsDone};

use crate::element_accesses::read_numbers;
use crate::harts::Hart;
use crate::pieces::{RegisterGroup, is_piece, store_group};
use crate::runs::is_run;
use memory::Bytes;
use memory_accesses::store_elements;
use rv_insn::{Addressing, ElementWidth, Outcome, Reg, Trap, VReg, VectorInsn};
use vector_unit::{Numbers, RequestedLength, Spacing};

/// A load or store of vector registers.
#[derive(Clone, Copy)]
struct VectorAccess {
    /// The registers that are loaded or stored.
    group: RegisterGroup,
    /// Whether all elements below the length are active, whatever the mask.
    vm: bool,
    /// The register that has the address from which on elements lie.
    rs1: Reg,
    /// How they lie.
    spacing: Spacing,
}

impl Hart {
    /// Executes a vector instruction, or says which trap it makes and changes nothing.
    #[inline(always)]
    pub(crate) fn execute_vector<M: Bytes>(
        &mut self,
        insn: &VectorInsn,
        memory: &mut M,
    ) -> Result<Outcome, Trap>
        ensures ok { IfOk result (λ outcome. IsDone (M.text memory.old) (M.memory memory.old) self.old
            (insns.Vector insn.now) self.new (M.memory memory.new) outcome) }
        ensures trap { IfErr result (λ trap. fault (length (M.text memory.old)) (length (M.memory memory.old))
            (insns.Vector insn.now) self.old ≡ Some trap) }
        ensures hart { OnErr result (self.new ≡ self.old) }
        ensures memory { OnErr result (M.memory memory.new ≡ M.memory memory.old) }
        ensures text { M.text memory.new ≡ M.text memory.old }
    {
        match *insn {
            VectorInsn::Vsetvli { rd, rs1, vtype } => {
                let asked = RequestedLength::by(rd, rs1, self.register(rs1));
                self.reconfigure(rd, u32::from(vtype.value()), asked)
            }
            VectorInsn::Vsetivli { rd, length, vtype } => {
                let asked = RequestedLength::AtMost(u32::from(length.value()));
                self.reconfigure(rd, u32::from(vtype.value()), asked)
            }
            VectorInsn::Vsetvl { rd, rs1, rs2 } => {
                let asked = RequestedLength::by(rd, rs1, self.register(rs1));
                self.reconfigure(rd, self.register(rs2), asked)
            }
            VectorInsn::LoadElements {
                width: ElementWidth::Bits32,
                vd,
                rs1,
                addressing: Addressing::UnitStride,
                vm: true,
            } if is_run(memory, self.vectors(), vd, self.register(rs1)) => {
                self.load_run(memory, vd, rs1);
                Ok(self.advance())
            }
            VectorInsn::StoreElements {
                width: ElementWidth::Bits32,
                vs3,
                rs1,
                addressing: Addressing::UnitStride,
                vm: true,
            } if is_run(memory, self.vectors(), vs3, self.register(rs1)) => {
                self.store_run(memory, vs3, rs1);
                Ok(self.advance())
            }
            VectorInsn::LoadElements {
                width: ElementWidth::Bits32,
                vd,
                rs1,
                addressing: Addressing::Strided { rs2 },
                vm: true,
            } if self.vectors().takes_words(vd) => {
                self.load_strided(memory, vd, rs1, rs2)?;
                Ok(self.advance())
            }
            VectorInsn::LoadElements {
                width: ElementWidth::Bits32,
                vd,
                rs1,
                addressing: Addressing::Indexed { vs2 },
                vm: true,
            } if self.vectors().takes_words(vd) && self.vectors().takes_words(vs2) => {
                self.load_indexed(memory, vd, rs1, vs2)?;
                Ok(self.advance())
            }
            VectorInsn::LoadElements { .. } | VectorInsn::StoreElements { .. } => {
                self.execute_access(insn, memory)
            }
            _ => self.execute_on_registers(insn),
        }
    }

    /// Executes a load or store of any kind. It is a function of its own, so that those of whole groups of words need
    /// no room.
    #[inline(never)]
    fn execute_access<M: Bytes>(
        &mut self,
        insn: &VectorInsn,
        memory: &mut M,
    ) -> Result<Outcome, Trap>
        requires { is_access insn.now ≡ true }
        ensures ok { IfOk result (λ outcome. IsDone (M.text memory.old) (M.memory memory.old) self.old
            (insns.Vector insn.now) self.new (M.memory memory.new) outcome) }
        ensures trap { IfErr result (λ trap. fault (length (M.text memory.old)) (length (M.memory memory.old))
            (insns.Vector insn.now) self.old ≡ Some trap) }
        ensures hart { OnErr result (self.new ≡ self.old) }
        ensures memory { OnErr result (M.memory memory.new ≡ M.memory memory.old) }
        ensures text { M.text memory.new ≡ M.text memory.old }
    {
        self.check_legal(insn)?;
        match *insn {
            VectorInsn::LoadElements {
                width,
                vd,
                rs1,
                addressing,
                vm,
            } => {
                let access = self.access(RegisterGroup { width, v: vd }, vm, rs1, addressing);
                self.load_vector(memory, &access)?;
            }
            VectorInsn::StoreElements {
                width,
                vs3,
                rs1,
                addressing,
                vm,
            } => {
                let access = self.access(RegisterGroup { width, v: vs3 }, vm, rs1, addressing);
                self.store_vector(memory, &access)?;
            }
            _ => unreachable!(),
        }
        Ok(Outcome::Stepped)
    }

    /// Whether an instruction that doesn't configure the unit is legal in the hart's state.
    #[inline(always)]
    fn check_legal(&self, insn: &VectorInsn) -> Result<(), Trap>
        ensures legal { OnOk result (is_refused insn.now (vectors_of self.now) ≡ false) }
        ensures illegal { OnErr result (is_refused insn.now (vectors_of self.now) ≡ true) }
        ensures trap { IfErr result (λ trap. trap ≡ Trap.IllegalInstruction) }
    {
        if self.vectors().refuses(insn) {
            return Err(Trap::IllegalInstruction);
        }
        Ok(())
    }

    /// Configures the vector unit, with the number of elements that it works on in `rd`.
    fn reconfigure(&mut self, rd: Reg, vtype: u32, asked: RequestedLength) -> Result<Outcome, Trap>
        ensures legal { OnOk result (is_illegal_configuration (vectors_of self.old) vtype asked ≡ false) }
        ensures hart { OnOk result (self.new ≡ configured_by self.old rd vtype asked) }
        ensures outcome { IfOk result (λ outcome. outcome ≡ Outcome.Stepped) }
        ensures illegal { OnErr result (is_illegal_configuration (vectors_of self.old) vtype asked ≡ true) }
        ensures trap { IfErr result (λ trap. trap ≡ Trap.IllegalInstruction) }
        ensures unchanged { OnErr result (self.new ≡ self.old) }
    {
        let vl = self.configure(vtype, asked)?;
        Ok(self.give(rd, vl))
    }

    /// The number in the integer register that an instruction reads beside vector registers, if it does.
    fn scalar_of(&self, insn: &VectorInsn) -> u32
        ensures { vector_after insn.now (λ r. result) (vectors_of self.now)
            ≡ vector_after insn.now (register self.now) (vectors_of self.now) }
    {
        match *insn {
            VectorInsn::ArithmeticVx { rs1, .. }
            | VectorInsn::CompareVx { rs1, .. }
            | VectorInsn::MultiplyVx { rs1, .. }
            | VectorInsn::MergeVx { rs1, .. }
            | VectorInsn::MoveVx { rs1, .. }
            | VectorInsn::MoveFromScalar { rs1, .. } => self.register(rs1),
            _ => 0,
        }
    }

    /// Executes an instruction that neither configures the unit nor touches memory.
    #[inline(always)]
    fn execute_on_registers(&mut self, insn: &VectorInsn) -> Result<Outcome, Trap>
        ensures own { OnOk result (is_own insn.now ≡ true) }
        ensures legal { OnOk result (is_refused insn.now (vectors_of self.old) ≡ false) }
        ensures hart { OnOk result (self.new ≡ computed_by insn.now self.old) }
        ensures outcome { IfOk result (λ outcome. outcome ≡ Outcome.Stepped) }
        ensures illegal { OnErr result (is_own insn.now && not (is_refused insn.now (vectors_of self.old)) ≡ false) }
        ensures trap { IfErr result (λ trap. trap ≡ Trap.IllegalInstruction) }
        ensures unchanged { OnErr result (self.new ≡ self.old) }
    {
        let scalar = self.scalar_of(insn);
        if self.compute_on_wholes(insn, scalar) {
            return Ok(self.advance());
        }
        self.execute_in_parts(insn)?;
        Ok(Outcome::Stepped)
    }

    /// The same of those that work on parts of groups, on other elements than words, or on single elements. It is a
    /// function of its own, so that the others need no room.
    #[inline(never)]
    fn execute_in_parts(&mut self, insn: &VectorInsn) -> Result<(), Trap>
        ensures own { OnOk result (is_own insn.now ≡ true) }
        ensures legal { OnOk result (is_refused insn.now (vectors_of self.old) ≡ false) }
        ensures hart { OnOk result (self.new ≡ computed_by insn.now self.old) }
        ensures illegal { OnErr result (is_own insn.now && not (is_refused insn.now (vectors_of self.old)) ≡ false) }
        ensures trap { IfErr result (λ trap. trap ≡ Trap.IllegalInstruction) }
        ensures unchanged { OnErr result (self.new ≡ self.old) }
    {
        let scalar = self.scalar_of(insn);
        let given = self.compute(insn, scalar)?;
        if let (Some(number), VectorInsn::MoveToScalar { rd, .. }) = (given, *insn) {
            self.set_register(rd, number);
        }
        self.advance();
        Ok(())
    }

    /// How the elements of a load or store lie.
    pub fn spacing(&self, width: ElementWidth, addressing: Addressing) -> Spacing
        ensures { result ≡ spacing_of width addressing (register self.now) }
    {
        match addressing {
            Addressing::UnitStride => Spacing::UnitStride(width),
            Addressing::Strided { rs2 } => Spacing::Strided(self.register(rs2)),
            Addressing::Indexed { vs2 } => Spacing::Indexed(vs2),
        }
    }

    /// A load or store of a group, from the address in `rs1` on.
    #[inline(always)]
    fn access(
        &self,
        group: RegisterGroup,
        vm: bool,
        rs1: Reg,
        addressing: Addressing,
    ) -> VectorAccess
        ensures group { result.group ≡ group }
        ensures vm { result.vm ≡ vm }
        ensures rs1 { result.rs1 ≡ rs1 }
        ensures spacing { result.spacing ≡ spacing_of group.width addressing (register self.now) }
    {
        VectorAccess {
            group,
            vm,
            rs1,
            spacing: self.spacing(group.width, addressing),
        }
    }

    /// The addresses of the active elements of an access from the address in `rs1` on.
    #[inline(always)]
    pub fn addresses(&self, spacing: Spacing, vm: bool, rs1: Reg) -> Numbers
        requires { has_vill (vectors_of self.now) ≡ false }
        ensures { result ≡ addresses_by (vectors_of self.now) spacing vm (register self.now rs1) }
    {
        self.vectors().addresses(spacing, vm, self.register(rs1))
    }

    /// Loads the active elements of a register, or says which trap the first that can't be loaded makes.
    #[inline(never)]
    fn load_vector<M: Bytes>(&mut self, memory: &M, access: &VectorAccess) -> Result<(), Trap>
        requires { has_vill (vectors_of self.old) ≡ false }
        ensures fits { OnOk result (first_fault (length (M.text memory.now)) (length (M.memory memory.now)) Reads
            (accesses_of self.old access.now) ≡ None) }
        ensures hart { OnOk result (self.new ≡ advanced (with_vectors self.old (loaded (vectors_of self.old)
            access.now.group.width access.now.group.v access.now.vm
            (map (number_at (M.text memory.now) (M.memory memory.now)) (accesses_of self.old access.now))))) }
        ensures err { IfErr result (λ trap. first_fault (length (M.text memory.now)) (length (M.memory memory.now))
            Reads (accesses_of self.old access.now) ≡ Some trap) }
        ensures unchanged { OnErr result (self.new ≡ self.old) }
    {
        let base = self.register(access.rs1);
        let group = &access.group;
        if is_piece(
            memory,
            self.vectors(),
            group.width,
            access.spacing,
            access.vm,
            base,
        ) {
            self.load_group(memory, group, base);
            self.advance();
            return Ok(());
        }
        self.load_each(memory, *access)
    }

    /// The same, each element judged on its own. It is a function of its own, so that accesses in one piece need no
    /// room for addresses.
    #[inline(never)]
    fn load_each<M: Bytes>(&mut self, memory: &M, access: VectorAccess) -> Result<(), Trap>
        requires { has_vill (vectors_of self.old) ≡ false }
        ensures fits { OnOk result (first_fault (length (M.text memory.now)) (length (M.memory memory.now)) Reads
            (accesses_of self.old access) ≡ None) }
        ensures hart { OnOk result (self.new ≡ advanced (with_vectors self.old (loaded (vectors_of self.old)
            access.group.width access.group.v access.vm
            (map (number_at (M.text memory.now) (M.memory memory.now)) (accesses_of self.old access))))) }
        ensures err { IfErr result (λ trap. first_fault (length (M.text memory.now)) (length (M.memory memory.now))
            Reads (accesses_of self.old access) ≡ Some trap) }
        ensures unchanged { OnErr result (self.new ≡ self.old) }
    {
        let VectorAccess {
            group: RegisterGroup { width, v: vd },
            vm,
            rs1,
            spacing,
        } = access;
        let addresses = self.addresses(spacing, vm, rs1);
        let numbers = read_numbers(width, memory, addresses.as_slice())?;
        self.load_elements(width, vd, vm, numbers.as_slice());
        self.advance();
        Ok(())
    }

    /// Stores the active elements of a register, or says which trap the first that can't be stored makes and
    /// writes nothing.
    #[inline(never)]
    fn store_vector<M: Bytes>(&mut self, memory: &mut M, access: &VectorAccess) -> Result<(), Trap>
        requires { has_vill (vectors_of self.old) ≡ false }
        ensures fits { OnOk result (first_fault (length (M.text memory.old)) (length (M.memory memory.old)) Writes
            (accesses_of self.old access.now) ≡ None) }
        ensures hart { OnOk result (self.new ≡ advanced self.old) }
        ensures put { OnOk result (M.memory memory.new
            ≡ put (M.memory memory.old) (touched (accesses_of self.old access.now))
            (spread (accesses_of self.old access.now)
            (active_numbers (vectors_of self.old) access.now.group.width access.now.group.v access.now.vm))) }
        ensures err { IfErr result (λ trap. first_fault (length (M.text memory.old)) (length (M.memory memory.old))
            Writes (accesses_of self.old access.now) ≡ Some trap) }
        ensures unchanged { OnErr result (self.new ≡ self.old) }
        ensures memory { OnErr result (M.memory memory.new ≡ M.memory memory.old) }
        ensures text { M.text memory.new ≡ M.text memory.old }
    {
        let base = self.register(access.rs1);
        let group = &access.group;
        if is_piece(
            memory,
            self.vectors(),
            group.width,
            access.spacing,
            access.vm,
            base,
        ) {
            store_group(memory, self.vectors(), group, base);
            self.advance();
            return Ok(());
        }
        self.store_each(memory, *access)
    }

    /// The same, each element judged on its own.
    #[inline(never)]
    fn store_each<M: Bytes>(&mut self, memory: &mut M, access: VectorAccess) -> Result<(), Trap>
        requires { has_vill (vectors_of self.old) ≡ false }
        ensures fits { OnOk result (first_fault (length (M.text memory.old)) (length (M.memory memory.old)) Writes
            (accesses_of self.old access) ≡ None) }
        ensures hart { OnOk result (self.new ≡ advanced self.old) }
        ensures put { OnOk result (M.memory memory.new
            ≡ put (M.memory memory.old) (touched (accesses_of self.old access))
            (spread (accesses_of self.old access)
            (active_numbers (vectors_of self.old) access.group.width access.group.v access.vm))) }
        ensures err { IfErr result (λ trap. first_fault (length (M.text memory.old)) (length (M.memory memory.old))
            Writes (accesses_of self.old access) ≡ Some trap) }
        ensures unchanged { OnErr result (self.new ≡ self.old) }
        ensures memory { OnErr result (M.memory memory.new ≡ M.memory memory.old) }
        ensures text { M.text memory.new ≡ M.text memory.old }
    {
        let VectorAccess {
            group: RegisterGroup { width, v: vs3 },
            vm,
            rs1,
            spacing,
        } = access;
        let addresses = self.addresses(spacing, vm, rs1);
        let numbers = self.vectors().active_numbers(width, vs3, vm);
        store_elements(width, memory, addresses.as_slice(), numbers.as_slice())?;
        self.advance();
        Ok(())
    }
}
