//! The interfaces of the modules that come with the compiler, as `docs/LANGUAGE.md` has them.

/// The interface of `Austral.Pervasive`.
pub(crate) const PERVASIVE: &[u8] = b"module Austral.Pervasive is
    union Option[T: Type]: Type is case None; case Some is value: T; end;
    union Either[L: Type, R: Type]: Type is case Left is left: L; case Right is right: R; end;
    union ExitCode: Free is case ExitSuccess; case ExitFailure; end;
    type RootCapability: Linear;
    function surrenderRoot(root: RootCapability): Unit;
    function abort(message: Span[Nat8, Static]): Unit;
    function spanLength(span: Span[Nat8, Static]): Index;
    generic [T: Type, R: Region] function swap(ref: &![T, R], value: T): T;
    typeclass Printable(T: Free) is
        method print(value: T): Unit;
        method printLn(value: T): Unit;
    end;
    typeclass ModularArithmetic(T: Free) is
        method modularAdd(lhs: T, rhs: T): T;
        method modularSubtract(lhs: T, rhs: T): T;
        method modularMultiply(lhs: T, rhs: T): T;
    end;
    typeclass Conversion(T: Free) is
        method toNat8(value: T): Option[Nat8];
        method toNat16(value: T): Option[Nat16];
        method toNat32(value: T): Option[Nat32];
        method toNat64(value: T): Option[Nat64];
        method toInt8(value: T): Option[Int8];
        method toInt16(value: T): Option[Int16];
        method toInt32(value: T): Option[Int32];
        method toInt64(value: T): Option[Int64];
        method toIndex(value: T): Option[Index];
    end;
    instance Printable(Bool);
    instance Printable(Nat8);
    instance Printable(Nat16);
    instance Printable(Nat32);
    instance Printable(Nat64);
    instance Printable(Int8);
    instance Printable(Int16);
    instance Printable(Int32);
    instance Printable(Int64);
    instance Printable(Index);
    instance Printable(Span[Nat8, Static]);
    instance ModularArithmetic(Nat8);
    instance ModularArithmetic(Nat16);
    instance ModularArithmetic(Nat32);
    instance ModularArithmetic(Nat64);
    instance ModularArithmetic(Int8);
    instance ModularArithmetic(Int16);
    instance ModularArithmetic(Int32);
    instance ModularArithmetic(Int64);
    instance ModularArithmetic(Index);
    instance Conversion(Nat8);
    instance Conversion(Nat16);
    instance Conversion(Nat32);
    instance Conversion(Nat64);
    instance Conversion(Int8);
    instance Conversion(Int16);
    instance Conversion(Int32);
    instance Conversion(Int64);
    instance Conversion(Index);
end module.
";

/// The interface of `Standard.Box`.
pub(crate) const BOXES: &[u8] = b"module Standard.Box is
    type Box[T: Type]: Linear;
    generic [T: Type] function makeBox(value: T): Box[T];
    generic [T: Type] function unbox(box: Box[T]): T;
    generic [T: Type, R: Region] function boxGet(ref: &[Box[T], R]): &[T, R];
    generic [T: Type, R: Region] function boxGetMut(ref: &![Box[T], R]): &![T, R];
end module.
";

/// The interface of `Standard.Buffer`.
pub(crate) const BUFFERS: &[u8] = b"module Standard.Buffer is
    type Buffer[T: Type]: Linear;
    generic [T: Type] function makeEmpty(): Buffer[T];
    generic [T: Type] function destroyEmpty(buffer: Buffer[T]): Unit;
    generic [T: Type, R: Region] function length(ref: &[Buffer[T], R]): Index;
    generic [T: Type, R: Region] function insertBack(ref: &![Buffer[T], R], value: T): Unit;
    generic [T: Type, R: Region] function removeBack(ref: &![Buffer[T], R]): T;
    generic [T: Free, R: Region] function nth(ref: &[Buffer[T], R], index: Index): T;
    generic [T: Type, R: Region] function replaceNth(ref: &![Buffer[T], R], index: Index, value: T): T;
end module.
";

/// The interface of `Standard.IO.Terminal`.
pub(crate) const TERMINAL: &[u8] = b"module Standard.IO.Terminal is
    type Terminal: Linear;
    generic [R: Region] function acquireTerminal(root: &![RootCapability, R]): Terminal;
    generic [R: Region] function readByte(ref: &![Terminal, R]): Option[Nat8];
    generic [R: Region] function writeByte(ref: &![Terminal, R], byte: Nat8): Unit;
    function releaseTerminal(terminal: Terminal): Unit;
end module.
";
