//! Made from docs/FAULTS.md by making/make-refusals: edit the document, and not this file.

/// Each refusal in a line.
pub const LIST: &str = r#"Bytes and tokens:
   1 BadByte           No word, number or sign begins or goes on with this byte.
   2 OpenString        The file ends inside a string.
   3 OpenComment       The file ends inside a remark.
   4 BadDirective      In a string, a backslash begins no directive that is read.
   5 BadCodePoint      The digits of a directive name no character.
   6 NotUtf8           A byte in a string is part of no UTF-8 character.
   7 BadNumber         A sign or an exponent has no digits behind it.
   8 NumberRange       The exponent of the number is outside -9999 to 9999.
   9 BadBinary         A binary has other digits, or bits that it must not have.
  10 NameRange         The name of an instance is over 18446744073709551615.
  11 BadName           No digit stands behind #.
  12 NotOneParameter   For param alone: the text is not one scalar parameter.
  13 BadWord           From the library alone: these bytes are no keyword.

Statements:
  20 Unexpected        No statement goes on with this token.
  21 TooDeep           Lists and typed parameters stand more than 64 deep.
  22 RecordTooLong     A statement has too many bytes.
  23 FileTooLong       The file, or the text of param, has too many bytes.
  24 EndsEarly         The file ends before END-ISO-10303-21;.
  25 AfterEnd          Something follows END-ISO-10303-21;.
  26 LeftOut           A form that is not read; its name is in parentheses.
  27 CanonicalTooLong  A canonical statement or file has too many bytes.

Header and sections:
  30 HeaderShape       A record of the header has another form than it must have.
  31 SchemaName        The file is of another schema than the one given.
  32 SectionShape      A data section has no name, or no list of one schema.
  33 SectionTwice      Two data sections have one name.

Instances:
  40 DuplicateName     Two instances have one name.
  41 UnknownEntity     The schema has no entity of this keyword.
  42 Abstract          The entity is abstract, and no subtype of it is there.
  43 PartMissing       The instance lacks the part of a supertype.
  44 PartTwice         An entity has two parts.
  45 Count             The record has another number of values than the entity.
  46 Missing           $ stands for a value that is not optional.
  47 StarNotDerived    * stands for a value that is not derived.
  48 DerivedNotStar    Something else than * stands for a derived value.
  49 WrongKind         The value is of another kind than its type.
  50 Width             A string or binary has another width than its type allows.
  51 Bounds            A list has fewer or more elements than its type allows.
  52 NotDistinct       Two elements that have to differ mean the same.
  53 UnknownItem       The enumeration has no such item.
  54 SelectType        The value has no type that its SELECT offers.
  55 TwoRedeclarations Two entities of the instance declare one attribute anew.
  56 Dangling          A reference names an instance that is not in the file.
  57 WrongTarget       A reference names an instance of the wrong entity.
  58 OneOf             The instance is of two entities of which it may be one.
  59 Alike             For --names alone: the model does not tell it from another one.

The machine (status 3, and the line that is printed has no number):
  90 NoMemory          out of memory: memory ran out.
  91 ReadFault         read fault: the system answered an error to a read.
  92 WriteFault        write fault: the answer could not be written.
     cannot open FILE  There is no such file, or it may not be read.

Schemas:
  S1 Token             A string or remark has no end, or a byte begins no word.
  S2 Syntax            No declaration goes on so.
  S3 Duplicate         A name is declared twice.
  S4 UnknownName       A name is declared nowhere.
  S5 Circular          An entity, a type or a SELECT stands in itself.
  S6 LeftOut           A form of EXPRESS that is not read.
  S7 Bounds            Bounds or a width that cannot be.
  S8 RedeclaredPlace   What is declared anew is no attribute of a supertype.
  S9 TooLarge          The schema is over a limit.

p21 faults N says more of one of them: N is its number, as 20 or S6, or its name."#;
