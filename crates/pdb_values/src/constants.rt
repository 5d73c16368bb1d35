//! The numbers of record kinds, and the prefixes of numbers and of padding. The names and values
//! are those of `LEAF_ENUM_e` in Microsoft's cvinfo.h. A name that ends in `_16t` belongs to
//! records whose indexes have 16 bits, and one that ends in `_ST` to records whose names follow a
//! byte with their length.

pub use pdb_base::numeric_leaf::{
    LF_CHAR, LF_COMPLEX32, LF_COMPLEX64, LF_COMPLEX80, LF_COMPLEX128, LF_DATE, LF_DECIMAL, LF_LONG,
    LF_NUMERIC, LF_OCTWORD, LF_QUADWORD, LF_REAL16, LF_REAL32, LF_REAL48, LF_REAL64, LF_REAL80,
    LF_REAL128, LF_SHORT, LF_ULONG, LF_UOCTWORD, LF_UQUADWORD, LF_USHORT, LF_UTF8STRING,
    LF_VARSTRING,
};

// Types that symbols refer to. Their indexes have 16 bits.
pub const LF_MODIFIER_16t: u16 = 0x0001;

pub const LF_POINTER_16t: u16 = 0x0002;

pub const LF_ARRAY_16t: u16 = 0x0003;

pub const LF_CLASS_16t: u16 = 0x0004;

pub const LF_STRUCTURE_16t: u16 = 0x0005;

pub const LF_UNION_16t: u16 = 0x0006;

pub const LF_ENUM_16t: u16 = 0x0007;

pub const LF_PROCEDURE_16t: u16 = 0x0008;

pub const LF_MFUNCTION_16t: u16 = 0x0009;

pub const LF_VTSHAPE: u16 = 0x000a;

pub const LF_COBOL0_16t: u16 = 0x000b;

pub const LF_COBOL1: u16 = 0x000c;

pub const LF_BARRAY_16t: u16 = 0x000d;

pub const LF_LABEL: u16 = 0x000e;

pub const LF_NULL: u16 = 0x000f;

pub const LF_NOTTRAN: u16 = 0x0010;

pub const LF_DIMARRAY_16t: u16 = 0x0011;

pub const LF_VFTPATH_16t: u16 = 0x0012;

pub const LF_PRECOMP_16t: u16 = 0x0013;

pub const LF_ENDPRECOMP: u16 = 0x0014;

pub const LF_OEM_16t: u16 = 0x0015;

pub const LF_TYPESERVER_ST: u16 = 0x0016;

// Types that only other types refer to. Their indexes have 16 bits.
pub const LF_SKIP_16t: u16 = 0x0200;

pub const LF_ARGLIST_16t: u16 = 0x0201;

pub const LF_DEFARG_16t: u16 = 0x0202;

pub const LF_LIST: u16 = 0x0203;

pub const LF_FIELDLIST_16t: u16 = 0x0204;

pub const LF_DERIVED_16t: u16 = 0x0205;

pub const LF_BITFIELD_16t: u16 = 0x0206;

pub const LF_METHODLIST_16t: u16 = 0x0207;

pub const LF_DIMCONU_16t: u16 = 0x0208;

pub const LF_DIMCONLU_16t: u16 = 0x0209;

pub const LF_DIMVARU_16t: u16 = 0x020a;

pub const LF_DIMVARLU_16t: u16 = 0x020b;

pub const LF_REFSYM: u16 = 0x020c;

// Entries of a field list. Their indexes have 16 bits.
pub const LF_BCLASS_16t: u16 = 0x0400;

pub const LF_VBCLASS_16t: u16 = 0x0401;

pub const LF_IVBCLASS_16t: u16 = 0x0402;

pub const LF_ENUMERATE_ST: u16 = 0x0403;

pub const LF_FRIENDFCN_16t: u16 = 0x0404;

pub const LF_INDEX_16t: u16 = 0x0405;

pub const LF_MEMBER_16t: u16 = 0x0406;

pub const LF_STMEMBER_16t: u16 = 0x0407;

pub const LF_METHOD_16t: u16 = 0x0408;

pub const LF_NESTTYPE_16t: u16 = 0x0409;

pub const LF_VFUNCTAB_16t: u16 = 0x040a;

pub const LF_FRIENDCLS_16t: u16 = 0x040b;

pub const LF_ONEMETHOD_16t: u16 = 0x040c;

pub const LF_VFUNCOFF_16t: u16 = 0x040d;

// Types that symbols refer to. Their indexes have 32 bits.
pub const LF_TI16_MAX: u16 = 0x1000;

pub const LF_MODIFIER: u16 = 0x1001;

pub const LF_POINTER: u16 = 0x1002;

pub const LF_ARRAY_ST: u16 = 0x1003;

pub const LF_CLASS_ST: u16 = 0x1004;

pub const LF_STRUCTURE_ST: u16 = 0x1005;

pub const LF_UNION_ST: u16 = 0x1006;

pub const LF_ENUM_ST: u16 = 0x1007;

pub const LF_PROCEDURE: u16 = 0x1008;

pub const LF_MFUNCTION: u16 = 0x1009;

pub const LF_COBOL0: u16 = 0x100a;

pub const LF_BARRAY: u16 = 0x100b;

pub const LF_DIMARRAY_ST: u16 = 0x100c;

pub const LF_VFTPATH: u16 = 0x100d;

pub const LF_PRECOMP_ST: u16 = 0x100e;

pub const LF_OEM: u16 = 0x100f;

pub const LF_ALIAS_ST: u16 = 0x1010;

pub const LF_OEM2: u16 = 0x1011;

// Types that only other types refer to. Their indexes have 32 bits.
pub const LF_SKIP: u16 = 0x1200;

pub const LF_ARGLIST: u16 = 0x1201;

pub const LF_DEFARG_ST: u16 = 0x1202;

pub const LF_FIELDLIST: u16 = 0x1203;

pub const LF_DERIVED: u16 = 0x1204;

pub const LF_BITFIELD: u16 = 0x1205;

pub const LF_METHODLIST: u16 = 0x1206;

pub const LF_DIMCONU: u16 = 0x1207;

pub const LF_DIMCONLU: u16 = 0x1208;

pub const LF_DIMVARU: u16 = 0x1209;

pub const LF_DIMVARLU: u16 = 0x120a;

// Entries of a field list. Their indexes have 32 bits.
pub const LF_BCLASS: u16 = 0x1400;

pub const LF_VBCLASS: u16 = 0x1401;

pub const LF_IVBCLASS: u16 = 0x1402;

pub const LF_FRIENDFCN_ST: u16 = 0x1403;

pub const LF_INDEX: u16 = 0x1404;

pub const LF_MEMBER_ST: u16 = 0x1405;

pub const LF_STMEMBER_ST: u16 = 0x1406;

pub const LF_METHOD_ST: u16 = 0x1407;

pub const LF_NESTTYPE_ST: u16 = 0x1408;

pub const LF_VFUNCTAB: u16 = 0x1409;

pub const LF_FRIENDCLS: u16 = 0x140a;

pub const LF_ONEMETHOD_ST: u16 = 0x140b;

pub const LF_VFUNCOFF: u16 = 0x140c;

pub const LF_NESTTYPEEX_ST: u16 = 0x140d;

pub const LF_MEMBERMODIFY_ST: u16 = 0x140e;

pub const LF_MANAGED_ST: u16 = 0x140f;

// Types and entries whose names end at a NUL.
pub const LF_ST_MAX: u16 = 0x1500;

pub const LF_TYPESERVER: u16 = 0x1501;

pub const LF_ENUMERATE: u16 = 0x1502;

pub const LF_ARRAY: u16 = 0x1503;

pub const LF_CLASS: u16 = 0x1504;

pub const LF_STRUCTURE: u16 = 0x1505;

pub const LF_UNION: u16 = 0x1506;

pub const LF_ENUM: u16 = 0x1507;

pub const LF_DIMARRAY: u16 = 0x1508;

pub const LF_PRECOMP: u16 = 0x1509;

pub const LF_ALIAS: u16 = 0x150a;

pub const LF_DEFARG: u16 = 0x150b;

pub const LF_FRIENDFCN: u16 = 0x150c;

pub const LF_MEMBER: u16 = 0x150d;

pub const LF_STMEMBER: u16 = 0x150e;

pub const LF_METHOD: u16 = 0x150f;

pub const LF_NESTTYPE: u16 = 0x1510;

pub const LF_ONEMETHOD: u16 = 0x1511;

pub const LF_NESTTYPEEX: u16 = 0x1512;

pub const LF_MEMBERMODIFY: u16 = 0x1513;

pub const LF_MANAGED: u16 = 0x1514;

pub const LF_TYPESERVER2: u16 = 0x1515;

pub const LF_STRIDED_ARRAY: u16 = 0x1516;

pub const LF_HLSL: u16 = 0x1517;

pub const LF_MODIFIER_EX: u16 = 0x1518;

pub const LF_INTERFACE: u16 = 0x1519;

pub const LF_BINTERFACE: u16 = 0x151a;

pub const LF_VECTOR: u16 = 0x151b;

pub const LF_MATRIX: u16 = 0x151c;

pub const LF_VFTABLE: u16 = 0x151d;

// The last of these, and the number after it.
pub const LF_ENDOFLEAFRECORD: u16 = 0x151d;

pub const LF_TYPE_MAX: u16 = 0x151d;

pub const LF_TYPE_LAST: u16 = 0x151e;

// Ids, the last of them and the number after it, and a type that was added later.
pub const LF_FUNC_ID: u16 = 0x1601;

pub const LF_MFUNC_ID: u16 = 0x1602;

pub const LF_BUILDINFO: u16 = 0x1603;

pub const LF_SUBSTR_LIST: u16 = 0x1604;

pub const LF_STRING_ID: u16 = 0x1605;

pub const LF_UDT_SRC_LINE: u16 = 0x1606;

pub const LF_UDT_MOD_SRC_LINE: u16 = 0x1607;

pub const LF_ID_MAX: u16 = 0x1607;

pub const LF_ID_LAST: u16 = 0x1608;

pub const LF_STRUCTURE19: u16 = 0x1609;

// Padding. The low four bits are its length in bytes, this byte included.
pub const LF_PAD0: u16 = 0x00f0;

pub const LF_PAD1: u16 = 0x00f1;

pub const LF_PAD2: u16 = 0x00f2;

pub const LF_PAD3: u16 = 0x00f3;

pub const LF_PAD4: u16 = 0x00f4;

pub const LF_PAD5: u16 = 0x00f5;

pub const LF_PAD6: u16 = 0x00f6;

pub const LF_PAD7: u16 = 0x00f7;

pub const LF_PAD8: u16 = 0x00f8;

pub const LF_PAD9: u16 = 0x00f9;

pub const LF_PAD10: u16 = 0x00fa;

pub const LF_PAD11: u16 = 0x00fb;

pub const LF_PAD12: u16 = 0x00fc;

pub const LF_PAD13: u16 = 0x00fd;

pub const LF_PAD14: u16 = 0x00fe;

pub const LF_PAD15: u16 = 0x00ff;
