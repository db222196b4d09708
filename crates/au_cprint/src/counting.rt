//! A macro for each of some operands, by how many there are.

/// A macro for each of some operands, by how many there are.
pub const COUNTING: &[u8] =
    br#"/* ---- counting: how many operands there are, and a macro for each of them */

#define COUNT(...) COUNT_(__VA_ARGS__, 257, 256, 255, 254, 253, 252, 251, 250, 249, 248, 247, 246, 245, \
    244, 243, 242, 241, 240, 239, 238, 237, 236, 235, 234, 233, 232, 231, 230, 229, 228, 227, 226, 225, \
    224, 223, 222, 221, 220, 219, 218, 217, 216, 215, 214, 213, 212, 211, 210, 209, 208, 207, 206, 205, \
    204, 203, 202, 201, 200, 199, 198, 197, 196, 195, 194, 193, 192, 191, 190, 189, 188, 187, 186, 185, \
    184, 183, 182, 181, 180, 179, 178, 177, 176, 175, 174, 173, 172, 171, 170, 169, 168, 167, 166, 165, \
    164, 163, 162, 161, 160, 159, 158, 157, 156, 155, 154, 153, 152, 151, 150, 149, 148, 147, 146, 145, \
    144, 143, 142, 141, 140, 139, 138, 137, 136, 135, 134, 133, 132, 131, 130, 129, 128, 127, 126, 125, \
    124, 123, 122, 121, 120, 119, 118, 117, 116, 115, 114, 113, 112, 111, 110, 109, 108, 107, 106, 105, \
    104, 103, 102, 101, 100, 99, 98, 97, 96, 95, 94, 93, 92, 91, 90, 89, 88, 87, 86, 85, 84, 83, 82, 81, \
    80, 79, 78, 77, 76, 75, 74, 73, 72, 71, 70, 69, 68, 67, 66, 65, 64, 63, 62, 61, 60, 59, 58, 57, 56, \
    55, 54, 53, 52, 51, 50, 49, 48, 47, 46, 45, 44, 43, 42, 41, 40, 39, 38, 37, 36, 35, 34, 33, 32, 31, \
    30, 29, 28, 27, 26, 25, 24, 23, 22, 21, 20, 19, 18, 17, 16, 15, 14, 13, 12, 11, 10, 9, 8, 7, 6, 5, 4, \
    3, 2, 1, )
#define COUNT_(A0, A1, A2, A3, A4, A5, A6, A7, A8, A9, A10, A11, A12, A13, A14, A15, A16, A17, A18, \
    A19, A20, A21, A22, A23, A24, A25, A26, A27, A28, A29, A30, A31, A32, A33, A34, A35, A36, A37, A38, \
    A39, A40, A41, A42, A43, A44, A45, A46, A47, A48, A49, A50, A51, A52, A53, A54, A55, A56, A57, A58, \
    A59, A60, A61, A62, A63, A64, A65, A66, A67, A68, A69, A70, A71, A72, A73, A74, A75, A76, A77, A78, \
    A79, A80, A81, A82, A83, A84, A85, A86, A87, A88, A89, A90, A91, A92, A93, A94, A95, A96, A97, A98, \
    A99, A100, A101, A102, A103, A104, A105, A106, A107, A108, A109, A110, A111, A112, A113, A114, \
    A115, A116, A117, A118, A119, A120, A121, A122, A123, A124, A125, A126, A127, A128, A129, A130, \
    A131, A132, A133, A134, A135, A136, A137, A138, A139, A140, A141, A142, A143, A144, A145, A146, \
    A147, A148, A149, A150, A151, A152, A153, A154, A155, A156, A157, A158, A159, A160, A161, A162, \
    A163, A164, A165, A166, A167, A168, A169, A170, A171, A172, A173, A174, A175, A176, A177, A178, \
    A179, A180, A181, A182, A183, A184, A185, A186, A187, A188, A189, A190, A191, A192, A193, A194, \
    A195, A196, A197, A198, A199, A200, A201, A202, A203, A204, A205, A206, A207, A208, A209, A210, \
    A211, A212, A213, A214, A215, A216, A217, A218, A219, A220, A221, A222, A223, A224, A225, A226, \
    A227, A228, A229, A230, A231, A232, A233, A234, A235, A236, A237, A238, A239, A240, A241, A242, \
    A243, A244, A245, A246, A247, A248, A249, A250, A251, A252, A253, A254, A255, A256, N, ...) N

/* ONE for one operand, and MORE for more */
#define ANY(...) COUNT_(__VA_ARGS__, MORE, MORE, MORE, MORE, MORE, MORE, MORE, MORE, MORE, MORE, MORE, \
    MORE, MORE, MORE, MORE, MORE, MORE, MORE, MORE, MORE, MORE, MORE, MORE, MORE, MORE, MORE, MORE, \
    MORE, MORE, MORE, MORE, MORE, MORE, MORE, MORE, MORE, MORE, MORE, MORE, MORE, MORE, MORE, MORE, \
    MORE, MORE, MORE, MORE, MORE, MORE, MORE, MORE, MORE, MORE, MORE, MORE, MORE, MORE, MORE, MORE, \
    MORE, MORE, MORE, MORE, MORE, MORE, MORE, MORE, MORE, MORE, MORE, MORE, MORE, MORE, MORE, MORE, \
    MORE, MORE, MORE, MORE, MORE, MORE, MORE, MORE, MORE, MORE, MORE, MORE, MORE, MORE, MORE, MORE, \
    MORE, MORE, MORE, MORE, MORE, MORE, MORE, MORE, MORE, MORE, MORE, MORE, MORE, MORE, MORE, MORE, \
    MORE, MORE, MORE, MORE, MORE, MORE, MORE, MORE, MORE, MORE, MORE, MORE, MORE, MORE, MORE, MORE, \
    MORE, MORE, MORE, MORE, MORE, MORE, MORE, MORE, MORE, MORE, MORE, MORE, MORE, MORE, MORE, MORE, \
    MORE, MORE, MORE, MORE, MORE, MORE, MORE, MORE, MORE, MORE, MORE, MORE, MORE, MORE, MORE, MORE, \
    MORE, MORE, MORE, MORE, MORE, MORE, MORE, MORE, MORE, MORE, MORE, MORE, MORE, MORE, MORE, MORE, \
    MORE, MORE, MORE, MORE, MORE, MORE, MORE, MORE, MORE, MORE, MORE, MORE, MORE, MORE, MORE, MORE, \
    MORE, MORE, MORE, MORE, MORE, MORE, MORE, MORE, MORE, MORE, MORE, MORE, MORE, MORE, MORE, MORE, \
    MORE, MORE, MORE, MORE, MORE, MORE, MORE, MORE, MORE, MORE, MORE, MORE, MORE, MORE, MORE, MORE, \
    MORE, MORE, MORE, MORE, MORE, MORE, MORE, MORE, MORE, MORE, MORE, MORE, MORE, MORE, MORE, MORE, \
    MORE, MORE, MORE, MORE, MORE, MORE, MORE, MORE, MORE, MORE, MORE, MORE, MORE, MORE, MORE, MORE, \
    MORE, MORE, MORE, MORE, MORE, ONE, )

/* EACH(n, M, x, y, .., z) is M(0, x) M(1, y) .. of n operands, without the last one */
#define EACH(N, M, ...) EACH_##N(M, N, __VA_ARGS__)
#define EACH_1(M, N, ...)
#define EACH_2(M, N, X, ...) M(N - 2, X) EACH_1(M, N, __VA_ARGS__)
#define EACH_3(M, N, X, ...) M(N - 3, X) EACH_2(M, N, __VA_ARGS__)
#define EACH_4(M, N, X, ...) M(N - 4, X) EACH_3(M, N, __VA_ARGS__)
#define EACH_5(M, N, X, ...) M(N - 5, X) EACH_4(M, N, __VA_ARGS__)
#define EACH_6(M, N, X, ...) M(N - 6, X) EACH_5(M, N, __VA_ARGS__)
#define EACH_7(M, N, X, ...) M(N - 7, X) EACH_6(M, N, __VA_ARGS__)
#define EACH_8(M, N, X, ...) M(N - 8, X) EACH_7(M, N, __VA_ARGS__)
#define EACH_9(M, N, X, ...) M(N - 9, X) EACH_8(M, N, __VA_ARGS__)
#define EACH_10(M, N, X, ...) M(N - 10, X) EACH_9(M, N, __VA_ARGS__)
#define EACH_11(M, N, X, ...) M(N - 11, X) EACH_10(M, N, __VA_ARGS__)
#define EACH_12(M, N, X, ...) M(N - 12, X) EACH_11(M, N, __VA_ARGS__)
#define EACH_13(M, N, X, ...) M(N - 13, X) EACH_12(M, N, __VA_ARGS__)
#define EACH_14(M, N, X, ...) M(N - 14, X) EACH_13(M, N, __VA_ARGS__)
#define EACH_15(M, N, X, ...) M(N - 15, X) EACH_14(M, N, __VA_ARGS__)
#define EACH_16(M, N, X, ...) M(N - 16, X) EACH_15(M, N, __VA_ARGS__)
#define EACH_17(M, N, X, ...) M(N - 17, X) EACH_16(M, N, __VA_ARGS__)
#define EACH_18(M, N, X, ...) M(N - 18, X) EACH_17(M, N, __VA_ARGS__)
#define EACH_19(M, N, X, ...) M(N - 19, X) EACH_18(M, N, __VA_ARGS__)
#define EACH_20(M, N, X, ...) M(N - 20, X) EACH_19(M, N, __VA_ARGS__)
#define EACH_21(M, N, X, ...) M(N - 21, X) EACH_20(M, N, __VA_ARGS__)
#define EACH_22(M, N, X, ...) M(N - 22, X) EACH_21(M, N, __VA_ARGS__)
#define EACH_23(M, N, X, ...) M(N - 23, X) EACH_22(M, N, __VA_ARGS__)
#define EACH_24(M, N, X, ...) M(N - 24, X) EACH_23(M, N, __VA_ARGS__)
#define EACH_25(M, N, X, ...) M(N - 25, X) EACH_24(M, N, __VA_ARGS__)
#define EACH_26(M, N, X, ...) M(N - 26, X) EACH_25(M, N, __VA_ARGS__)
#define EACH_27(M, N, X, ...) M(N - 27, X) EACH_26(M, N, __VA_ARGS__)
#define EACH_28(M, N, X, ...) M(N - 28, X) EACH_27(M, N, __VA_ARGS__)
#define EACH_29(M, N, X, ...) M(N - 29, X) EACH_28(M, N, __VA_ARGS__)
#define EACH_30(M, N, X, ...) M(N - 30, X) EACH_29(M, N, __VA_ARGS__)
#define EACH_31(M, N, X, ...) M(N - 31, X) EACH_30(M, N, __VA_ARGS__)
#define EACH_32(M, N, X, ...) M(N - 32, X) EACH_31(M, N, __VA_ARGS__)
#define EACH_33(M, N, X, ...) M(N - 33, X) EACH_32(M, N, __VA_ARGS__)
#define EACH_34(M, N, X, ...) M(N - 34, X) EACH_33(M, N, __VA_ARGS__)
#define EACH_35(M, N, X, ...) M(N - 35, X) EACH_34(M, N, __VA_ARGS__)
#define EACH_36(M, N, X, ...) M(N - 36, X) EACH_35(M, N, __VA_ARGS__)
#define EACH_37(M, N, X, ...) M(N - 37, X) EACH_36(M, N, __VA_ARGS__)
#define EACH_38(M, N, X, ...) M(N - 38, X) EACH_37(M, N, __VA_ARGS__)
#define EACH_39(M, N, X, ...) M(N - 39, X) EACH_38(M, N, __VA_ARGS__)
#define EACH_40(M, N, X, ...) M(N - 40, X) EACH_39(M, N, __VA_ARGS__)
#define EACH_41(M, N, X, ...) M(N - 41, X) EACH_40(M, N, __VA_ARGS__)
#define EACH_42(M, N, X, ...) M(N - 42, X) EACH_41(M, N, __VA_ARGS__)
#define EACH_43(M, N, X, ...) M(N - 43, X) EACH_42(M, N, __VA_ARGS__)
#define EACH_44(M, N, X, ...) M(N - 44, X) EACH_43(M, N, __VA_ARGS__)
#define EACH_45(M, N, X, ...) M(N - 45, X) EACH_44(M, N, __VA_ARGS__)
#define EACH_46(M, N, X, ...) M(N - 46, X) EACH_45(M, N, __VA_ARGS__)
#define EACH_47(M, N, X, ...) M(N - 47, X) EACH_46(M, N, __VA_ARGS__)
#define EACH_48(M, N, X, ...) M(N - 48, X) EACH_47(M, N, __VA_ARGS__)
#define EACH_49(M, N, X, ...) M(N - 49, X) EACH_48(M, N, __VA_ARGS__)
#define EACH_50(M, N, X, ...) M(N - 50, X) EACH_49(M, N, __VA_ARGS__)
#define EACH_51(M, N, X, ...) M(N - 51, X) EACH_50(M, N, __VA_ARGS__)
#define EACH_52(M, N, X, ...) M(N - 52, X) EACH_51(M, N, __VA_ARGS__)
#define EACH_53(M, N, X, ...) M(N - 53, X) EACH_52(M, N, __VA_ARGS__)
#define EACH_54(M, N, X, ...) M(N - 54, X) EACH_53(M, N, __VA_ARGS__)
#define EACH_55(M, N, X, ...) M(N - 55, X) EACH_54(M, N, __VA_ARGS__)
#define EACH_56(M, N, X, ...) M(N - 56, X) EACH_55(M, N, __VA_ARGS__)
#define EACH_57(M, N, X, ...) M(N - 57, X) EACH_56(M, N, __VA_ARGS__)
#define EACH_58(M, N, X, ...) M(N - 58, X) EACH_57(M, N, __VA_ARGS__)
#define EACH_59(M, N, X, ...) M(N - 59, X) EACH_58(M, N, __VA_ARGS__)
#define EACH_60(M, N, X, ...) M(N - 60, X) EACH_59(M, N, __VA_ARGS__)
#define EACH_61(M, N, X, ...) M(N - 61, X) EACH_60(M, N, __VA_ARGS__)
#define EACH_62(M, N, X, ...) M(N - 62, X) EACH_61(M, N, __VA_ARGS__)
#define EACH_63(M, N, X, ...) M(N - 63, X) EACH_62(M, N, __VA_ARGS__)
#define EACH_64(M, N, X, ...) M(N - 64, X) EACH_63(M, N, __VA_ARGS__)
#define EACH_65(M, N, X, ...) M(N - 65, X) EACH_64(M, N, __VA_ARGS__)
#define EACH_66(M, N, X, ...) M(N - 66, X) EACH_65(M, N, __VA_ARGS__)
#define EACH_67(M, N, X, ...) M(N - 67, X) EACH_66(M, N, __VA_ARGS__)
#define EACH_68(M, N, X, ...) M(N - 68, X) EACH_67(M, N, __VA_ARGS__)
#define EACH_69(M, N, X, ...) M(N - 69, X) EACH_68(M, N, __VA_ARGS__)
#define EACH_70(M, N, X, ...) M(N - 70, X) EACH_69(M, N, __VA_ARGS__)
#define EACH_71(M, N, X, ...) M(N - 71, X) EACH_70(M, N, __VA_ARGS__)
#define EACH_72(M, N, X, ...) M(N - 72, X) EACH_71(M, N, __VA_ARGS__)
#define EACH_73(M, N, X, ...) M(N - 73, X) EACH_72(M, N, __VA_ARGS__)
#define EACH_74(M, N, X, ...) M(N - 74, X) EACH_73(M, N, __VA_ARGS__)
#define EACH_75(M, N, X, ...) M(N - 75, X) EACH_74(M, N, __VA_ARGS__)
#define EACH_76(M, N, X, ...) M(N - 76, X) EACH_75(M, N, __VA_ARGS__)
#define EACH_77(M, N, X, ...) M(N - 77, X) EACH_76(M, N, __VA_ARGS__)
#define EACH_78(M, N, X, ...) M(N - 78, X) EACH_77(M, N, __VA_ARGS__)
#define EACH_79(M, N, X, ...) M(N - 79, X) EACH_78(M, N, __VA_ARGS__)
#define EACH_80(M, N, X, ...) M(N - 80, X) EACH_79(M, N, __VA_ARGS__)
#define EACH_81(M, N, X, ...) M(N - 81, X) EACH_80(M, N, __VA_ARGS__)
#define EACH_82(M, N, X, ...) M(N - 82, X) EACH_81(M, N, __VA_ARGS__)
#define EACH_83(M, N, X, ...) M(N - 83, X) EACH_82(M, N, __VA_ARGS__)
#define EACH_84(M, N, X, ...) M(N - 84, X) EACH_83(M, N, __VA_ARGS__)
#define EACH_85(M, N, X, ...) M(N - 85, X) EACH_84(M, N, __VA_ARGS__)
#define EACH_86(M, N, X, ...) M(N - 86, X) EACH_85(M, N, __VA_ARGS__)
#define EACH_87(M, N, X, ...) M(N - 87, X) EACH_86(M, N, __VA_ARGS__)
#define EACH_88(M, N, X, ...) M(N - 88, X) EACH_87(M, N, __VA_ARGS__)
#define EACH_89(M, N, X, ...) M(N - 89, X) EACH_88(M, N, __VA_ARGS__)
#define EACH_90(M, N, X, ...) M(N - 90, X) EACH_89(M, N, __VA_ARGS__)
#define EACH_91(M, N, X, ...) M(N - 91, X) EACH_90(M, N, __VA_ARGS__)
#define EACH_92(M, N, X, ...) M(N - 92, X) EACH_91(M, N, __VA_ARGS__)
#define EACH_93(M, N, X, ...) M(N - 93, X) EACH_92(M, N, __VA_ARGS__)
#define EACH_94(M, N, X, ...) M(N - 94, X) EACH_93(M, N, __VA_ARGS__)
#define EACH_95(M, N, X, ...) M(N - 95, X) EACH_94(M, N, __VA_ARGS__)
#define EACH_96(M, N, X, ...) M(N - 96, X) EACH_95(M, N, __VA_ARGS__)
#define EACH_97(M, N, X, ...) M(N - 97, X) EACH_96(M, N, __VA_ARGS__)
#define EACH_98(M, N, X, ...) M(N - 98, X) EACH_97(M, N, __VA_ARGS__)
#define EACH_99(M, N, X, ...) M(N - 99, X) EACH_98(M, N, __VA_ARGS__)
#define EACH_100(M, N, X, ...) M(N - 100, X) EACH_99(M, N, __VA_ARGS__)
#define EACH_101(M, N, X, ...) M(N - 101, X) EACH_100(M, N, __VA_ARGS__)
#define EACH_102(M, N, X, ...) M(N - 102, X) EACH_101(M, N, __VA_ARGS__)
#define EACH_103(M, N, X, ...) M(N - 103, X) EACH_102(M, N, __VA_ARGS__)
#define EACH_104(M, N, X, ...) M(N - 104, X) EACH_103(M, N, __VA_ARGS__)
#define EACH_105(M, N, X, ...) M(N - 105, X) EACH_104(M, N, __VA_ARGS__)
#define EACH_106(M, N, X, ...) M(N - 106, X) EACH_105(M, N, __VA_ARGS__)
#define EACH_107(M, N, X, ...) M(N - 107, X) EACH_106(M, N, __VA_ARGS__)
#define EACH_108(M, N, X, ...) M(N - 108, X) EACH_107(M, N, __VA_ARGS__)
#define EACH_109(M, N, X, ...) M(N - 109, X) EACH_108(M, N, __VA_ARGS__)
#define EACH_110(M, N, X, ...) M(N - 110, X) EACH_109(M, N, __VA_ARGS__)
#define EACH_111(M, N, X, ...) M(N - 111, X) EACH_110(M, N, __VA_ARGS__)
#define EACH_112(M, N, X, ...) M(N - 112, X) EACH_111(M, N, __VA_ARGS__)
#define EACH_113(M, N, X, ...) M(N - 113, X) EACH_112(M, N, __VA_ARGS__)
#define EACH_114(M, N, X, ...) M(N - 114, X) EACH_113(M, N, __VA_ARGS__)
#define EACH_115(M, N, X, ...) M(N - 115, X) EACH_114(M, N, __VA_ARGS__)
#define EACH_116(M, N, X, ...) M(N - 116, X) EACH_115(M, N, __VA_ARGS__)
#define EACH_117(M, N, X, ...) M(N - 117, X) EACH_116(M, N, __VA_ARGS__)
#define EACH_118(M, N, X, ...) M(N - 118, X) EACH_117(M, N, __VA_ARGS__)
#define EACH_119(M, N, X, ...) M(N - 119, X) EACH_118(M, N, __VA_ARGS__)
#define EACH_120(M, N, X, ...) M(N - 120, X) EACH_119(M, N, __VA_ARGS__)
#define EACH_121(M, N, X, ...) M(N - 121, X) EACH_120(M, N, __VA_ARGS__)
#define EACH_122(M, N, X, ...) M(N - 122, X) EACH_121(M, N, __VA_ARGS__)
#define EACH_123(M, N, X, ...) M(N - 123, X) EACH_122(M, N, __VA_ARGS__)
#define EACH_124(M, N, X, ...) M(N - 124, X) EACH_123(M, N, __VA_ARGS__)
#define EACH_125(M, N, X, ...) M(N - 125, X) EACH_124(M, N, __VA_ARGS__)
#define EACH_126(M, N, X, ...) M(N - 126, X) EACH_125(M, N, __VA_ARGS__)
#define EACH_127(M, N, X, ...) M(N - 127, X) EACH_126(M, N, __VA_ARGS__)
#define EACH_128(M, N, X, ...) M(N - 128, X) EACH_127(M, N, __VA_ARGS__)
#define EACH_129(M, N, X, ...) M(N - 129, X) EACH_128(M, N, __VA_ARGS__)
#define EACH_130(M, N, X, ...) M(N - 130, X) EACH_129(M, N, __VA_ARGS__)
#define EACH_131(M, N, X, ...) M(N - 131, X) EACH_130(M, N, __VA_ARGS__)
#define EACH_132(M, N, X, ...) M(N - 132, X) EACH_131(M, N, __VA_ARGS__)
#define EACH_133(M, N, X, ...) M(N - 133, X) EACH_132(M, N, __VA_ARGS__)
#define EACH_134(M, N, X, ...) M(N - 134, X) EACH_133(M, N, __VA_ARGS__)
#define EACH_135(M, N, X, ...) M(N - 135, X) EACH_134(M, N, __VA_ARGS__)
#define EACH_136(M, N, X, ...) M(N - 136, X) EACH_135(M, N, __VA_ARGS__)
#define EACH_137(M, N, X, ...) M(N - 137, X) EACH_136(M, N, __VA_ARGS__)
#define EACH_138(M, N, X, ...) M(N - 138, X) EACH_137(M, N, __VA_ARGS__)
#define EACH_139(M, N, X, ...) M(N - 139, X) EACH_138(M, N, __VA_ARGS__)
#define EACH_140(M, N, X, ...) M(N - 140, X) EACH_139(M, N, __VA_ARGS__)
#define EACH_141(M, N, X, ...) M(N - 141, X) EACH_140(M, N, __VA_ARGS__)
#define EACH_142(M, N, X, ...) M(N - 142, X) EACH_141(M, N, __VA_ARGS__)
#define EACH_143(M, N, X, ...) M(N - 143, X) EACH_142(M, N, __VA_ARGS__)
#define EACH_144(M, N, X, ...) M(N - 144, X) EACH_143(M, N, __VA_ARGS__)
#define EACH_145(M, N, X, ...) M(N - 145, X) EACH_144(M, N, __VA_ARGS__)
#define EACH_146(M, N, X, ...) M(N - 146, X) EACH_145(M, N, __VA_ARGS__)
#define EACH_147(M, N, X, ...) M(N - 147, X) EACH_146(M, N, __VA_ARGS__)
#define EACH_148(M, N, X, ...) M(N - 148, X) EACH_147(M, N, __VA_ARGS__)
#define EACH_149(M, N, X, ...) M(N - 149, X) EACH_148(M, N, __VA_ARGS__)
#define EACH_150(M, N, X, ...) M(N - 150, X) EACH_149(M, N, __VA_ARGS__)
#define EACH_151(M, N, X, ...) M(N - 151, X) EACH_150(M, N, __VA_ARGS__)
#define EACH_152(M, N, X, ...) M(N - 152, X) EACH_151(M, N, __VA_ARGS__)
#define EACH_153(M, N, X, ...) M(N - 153, X) EACH_152(M, N, __VA_ARGS__)
#define EACH_154(M, N, X, ...) M(N - 154, X) EACH_153(M, N, __VA_ARGS__)
#define EACH_155(M, N, X, ...) M(N - 155, X) EACH_154(M, N, __VA_ARGS__)
#define EACH_156(M, N, X, ...) M(N - 156, X) EACH_155(M, N, __VA_ARGS__)
#define EACH_157(M, N, X, ...) M(N - 157, X) EACH_156(M, N, __VA_ARGS__)
#define EACH_158(M, N, X, ...) M(N - 158, X) EACH_157(M, N, __VA_ARGS__)
#define EACH_159(M, N, X, ...) M(N - 159, X) EACH_158(M, N, __VA_ARGS__)
#define EACH_160(M, N, X, ...) M(N - 160, X) EACH_159(M, N, __VA_ARGS__)
#define EACH_161(M, N, X, ...) M(N - 161, X) EACH_160(M, N, __VA_ARGS__)
#define EACH_162(M, N, X, ...) M(N - 162, X) EACH_161(M, N, __VA_ARGS__)
#define EACH_163(M, N, X, ...) M(N - 163, X) EACH_162(M, N, __VA_ARGS__)
#define EACH_164(M, N, X, ...) M(N - 164, X) EACH_163(M, N, __VA_ARGS__)
#define EACH_165(M, N, X, ...) M(N - 165, X) EACH_164(M, N, __VA_ARGS__)
#define EACH_166(M, N, X, ...) M(N - 166, X) EACH_165(M, N, __VA_ARGS__)
#define EACH_167(M, N, X, ...) M(N - 167, X) EACH_166(M, N, __VA_ARGS__)
#define EACH_168(M, N, X, ...) M(N - 168, X) EACH_167(M, N, __VA_ARGS__)
#define EACH_169(M, N, X, ...) M(N - 169, X) EACH_168(M, N, __VA_ARGS__)
#define EACH_170(M, N, X, ...) M(N - 170, X) EACH_169(M, N, __VA_ARGS__)
#define EACH_171(M, N, X, ...) M(N - 171, X) EACH_170(M, N, __VA_ARGS__)
#define EACH_172(M, N, X, ...) M(N - 172, X) EACH_171(M, N, __VA_ARGS__)
#define EACH_173(M, N, X, ...) M(N - 173, X) EACH_172(M, N, __VA_ARGS__)
#define EACH_174(M, N, X, ...) M(N - 174, X) EACH_173(M, N, __VA_ARGS__)
#define EACH_175(M, N, X, ...) M(N - 175, X) EACH_174(M, N, __VA_ARGS__)
#define EACH_176(M, N, X, ...) M(N - 176, X) EACH_175(M, N, __VA_ARGS__)
#define EACH_177(M, N, X, ...) M(N - 177, X) EACH_176(M, N, __VA_ARGS__)
#define EACH_178(M, N, X, ...) M(N - 178, X) EACH_177(M, N, __VA_ARGS__)
#define EACH_179(M, N, X, ...) M(N - 179, X) EACH_178(M, N, __VA_ARGS__)
#define EACH_180(M, N, X, ...) M(N - 180, X) EACH_179(M, N, __VA_ARGS__)
#define EACH_181(M, N, X, ...) M(N - 181, X) EACH_180(M, N, __VA_ARGS__)
#define EACH_182(M, N, X, ...) M(N - 182, X) EACH_181(M, N, __VA_ARGS__)
#define EACH_183(M, N, X, ...) M(N - 183, X) EACH_182(M, N, __VA_ARGS__)
#define EACH_184(M, N, X, ...) M(N - 184, X) EACH_183(M, N, __VA_ARGS__)
#define EACH_185(M, N, X, ...) M(N - 185, X) EACH_184(M, N, __VA_ARGS__)
#define EACH_186(M, N, X, ...) M(N - 186, X) EACH_185(M, N, __VA_ARGS__)
#define EACH_187(M, N, X, ...) M(N - 187, X) EACH_186(M, N, __VA_ARGS__)
#define EACH_188(M, N, X, ...) M(N - 188, X) EACH_187(M, N, __VA_ARGS__)
#define EACH_189(M, N, X, ...) M(N - 189, X) EACH_188(M, N, __VA_ARGS__)
#define EACH_190(M, N, X, ...) M(N - 190, X) EACH_189(M, N, __VA_ARGS__)
#define EACH_191(M, N, X, ...) M(N - 191, X) EACH_190(M, N, __VA_ARGS__)
#define EACH_192(M, N, X, ...) M(N - 192, X) EACH_191(M, N, __VA_ARGS__)
#define EACH_193(M, N, X, ...) M(N - 193, X) EACH_192(M, N, __VA_ARGS__)
#define EACH_194(M, N, X, ...) M(N - 194, X) EACH_193(M, N, __VA_ARGS__)
#define EACH_195(M, N, X, ...) M(N - 195, X) EACH_194(M, N, __VA_ARGS__)
#define EACH_196(M, N, X, ...) M(N - 196, X) EACH_195(M, N, __VA_ARGS__)
#define EACH_197(M, N, X, ...) M(N - 197, X) EACH_196(M, N, __VA_ARGS__)
#define EACH_198(M, N, X, ...) M(N - 198, X) EACH_197(M, N, __VA_ARGS__)
#define EACH_199(M, N, X, ...) M(N - 199, X) EACH_198(M, N, __VA_ARGS__)
#define EACH_200(M, N, X, ...) M(N - 200, X) EACH_199(M, N, __VA_ARGS__)
#define EACH_201(M, N, X, ...) M(N - 201, X) EACH_200(M, N, __VA_ARGS__)
#define EACH_202(M, N, X, ...) M(N - 202, X) EACH_201(M, N, __VA_ARGS__)
#define EACH_203(M, N, X, ...) M(N - 203, X) EACH_202(M, N, __VA_ARGS__)
#define EACH_204(M, N, X, ...) M(N - 204, X) EACH_203(M, N, __VA_ARGS__)
#define EACH_205(M, N, X, ...) M(N - 205, X) EACH_204(M, N, __VA_ARGS__)
#define EACH_206(M, N, X, ...) M(N - 206, X) EACH_205(M, N, __VA_ARGS__)
#define EACH_207(M, N, X, ...) M(N - 207, X) EACH_206(M, N, __VA_ARGS__)
#define EACH_208(M, N, X, ...) M(N - 208, X) EACH_207(M, N, __VA_ARGS__)
#define EACH_209(M, N, X, ...) M(N - 209, X) EACH_208(M, N, __VA_ARGS__)
#define EACH_210(M, N, X, ...) M(N - 210, X) EACH_209(M, N, __VA_ARGS__)
#define EACH_211(M, N, X, ...) M(N - 211, X) EACH_210(M, N, __VA_ARGS__)
#define EACH_212(M, N, X, ...) M(N - 212, X) EACH_211(M, N, __VA_ARGS__)
#define EACH_213(M, N, X, ...) M(N - 213, X) EACH_212(M, N, __VA_ARGS__)
#define EACH_214(M, N, X, ...) M(N - 214, X) EACH_213(M, N, __VA_ARGS__)
#define EACH_215(M, N, X, ...) M(N - 215, X) EACH_214(M, N, __VA_ARGS__)
#define EACH_216(M, N, X, ...) M(N - 216, X) EACH_215(M, N, __VA_ARGS__)
#define EACH_217(M, N, X, ...) M(N - 217, X) EACH_216(M, N, __VA_ARGS__)
#define EACH_218(M, N, X, ...) M(N - 218, X) EACH_217(M, N, __VA_ARGS__)
#define EACH_219(M, N, X, ...) M(N - 219, X) EACH_218(M, N, __VA_ARGS__)
#define EACH_220(M, N, X, ...) M(N - 220, X) EACH_219(M, N, __VA_ARGS__)
#define EACH_221(M, N, X, ...) M(N - 221, X) EACH_220(M, N, __VA_ARGS__)
#define EACH_222(M, N, X, ...) M(N - 222, X) EACH_221(M, N, __VA_ARGS__)
#define EACH_223(M, N, X, ...) M(N - 223, X) EACH_222(M, N, __VA_ARGS__)
#define EACH_224(M, N, X, ...) M(N - 224, X) EACH_223(M, N, __VA_ARGS__)
#define EACH_225(M, N, X, ...) M(N - 225, X) EACH_224(M, N, __VA_ARGS__)
#define EACH_226(M, N, X, ...) M(N - 226, X) EACH_225(M, N, __VA_ARGS__)
#define EACH_227(M, N, X, ...) M(N - 227, X) EACH_226(M, N, __VA_ARGS__)
#define EACH_228(M, N, X, ...) M(N - 228, X) EACH_227(M, N, __VA_ARGS__)
#define EACH_229(M, N, X, ...) M(N - 229, X) EACH_228(M, N, __VA_ARGS__)
#define EACH_230(M, N, X, ...) M(N - 230, X) EACH_229(M, N, __VA_ARGS__)
#define EACH_231(M, N, X, ...) M(N - 231, X) EACH_230(M, N, __VA_ARGS__)
#define EACH_232(M, N, X, ...) M(N - 232, X) EACH_231(M, N, __VA_ARGS__)
#define EACH_233(M, N, X, ...) M(N - 233, X) EACH_232(M, N, __VA_ARGS__)
#define EACH_234(M, N, X, ...) M(N - 234, X) EACH_233(M, N, __VA_ARGS__)
#define EACH_235(M, N, X, ...) M(N - 235, X) EACH_234(M, N, __VA_ARGS__)
#define EACH_236(M, N, X, ...) M(N - 236, X) EACH_235(M, N, __VA_ARGS__)
#define EACH_237(M, N, X, ...) M(N - 237, X) EACH_236(M, N, __VA_ARGS__)
#define EACH_238(M, N, X, ...) M(N - 238, X) EACH_237(M, N, __VA_ARGS__)
#define EACH_239(M, N, X, ...) M(N - 239, X) EACH_238(M, N, __VA_ARGS__)
#define EACH_240(M, N, X, ...) M(N - 240, X) EACH_239(M, N, __VA_ARGS__)
#define EACH_241(M, N, X, ...) M(N - 241, X) EACH_240(M, N, __VA_ARGS__)
#define EACH_242(M, N, X, ...) M(N - 242, X) EACH_241(M, N, __VA_ARGS__)
#define EACH_243(M, N, X, ...) M(N - 243, X) EACH_242(M, N, __VA_ARGS__)
#define EACH_244(M, N, X, ...) M(N - 244, X) EACH_243(M, N, __VA_ARGS__)
#define EACH_245(M, N, X, ...) M(N - 245, X) EACH_244(M, N, __VA_ARGS__)
#define EACH_246(M, N, X, ...) M(N - 246, X) EACH_245(M, N, __VA_ARGS__)
#define EACH_247(M, N, X, ...) M(N - 247, X) EACH_246(M, N, __VA_ARGS__)
#define EACH_248(M, N, X, ...) M(N - 248, X) EACH_247(M, N, __VA_ARGS__)
#define EACH_249(M, N, X, ...) M(N - 249, X) EACH_248(M, N, __VA_ARGS__)
#define EACH_250(M, N, X, ...) M(N - 250, X) EACH_249(M, N, __VA_ARGS__)
#define EACH_251(M, N, X, ...) M(N - 251, X) EACH_250(M, N, __VA_ARGS__)
#define EACH_252(M, N, X, ...) M(N - 252, X) EACH_251(M, N, __VA_ARGS__)
#define EACH_253(M, N, X, ...) M(N - 253, X) EACH_252(M, N, __VA_ARGS__)
#define EACH_254(M, N, X, ...) M(N - 254, X) EACH_253(M, N, __VA_ARGS__)
#define EACH_255(M, N, X, ...) M(N - 255, X) EACH_254(M, N, __VA_ARGS__)
#define EACH_256(M, N, X, ...) M(N - 256, X) EACH_255(M, N, __VA_ARGS__)
#define EACH_257(M, N, X, ...) M(N - 257, X) EACH_256(M, N, __VA_ARGS__)

/* the parameters of a function, and its first slots */
#define PARAMETERS_0 void
#define PARAMETERS_1 V a0
#define PARAMETERS_2 PARAMETERS_1, V a1
#define PARAMETERS_3 PARAMETERS_2, V a2
#define PARAMETERS_4 PARAMETERS_3, V a3
#define PARAMETERS_5 PARAMETERS_4, V a4
#define PARAMETERS_6 PARAMETERS_5, V a5
#define PARAMETERS_7 PARAMETERS_6, V a6
#define PARAMETERS_8 PARAMETERS_7, V a7
#define PARAMETERS_9 PARAMETERS_8, V a8
#define PARAMETERS_10 PARAMETERS_9, V a9
#define PARAMETERS_11 PARAMETERS_10, V a10
#define PARAMETERS_12 PARAMETERS_11, V a11
#define PARAMETERS_13 PARAMETERS_12, V a12
#define PARAMETERS_14 PARAMETERS_13, V a13
#define PARAMETERS_15 PARAMETERS_14, V a14
#define PARAMETERS_16 PARAMETERS_15, V a15
#define PARAMETERS_17 PARAMETERS_16, V a16
#define PARAMETERS_18 PARAMETERS_17, V a17
#define PARAMETERS_19 PARAMETERS_18, V a18
#define PARAMETERS_20 PARAMETERS_19, V a19
#define PARAMETERS_21 PARAMETERS_20, V a20
#define PARAMETERS_22 PARAMETERS_21, V a21
#define PARAMETERS_23 PARAMETERS_22, V a22
#define PARAMETERS_24 PARAMETERS_23, V a23
#define PARAMETERS_25 PARAMETERS_24, V a24
#define PARAMETERS_26 PARAMETERS_25, V a25
#define PARAMETERS_27 PARAMETERS_26, V a26
#define PARAMETERS_28 PARAMETERS_27, V a27
#define PARAMETERS_29 PARAMETERS_28, V a28
#define PARAMETERS_30 PARAMETERS_29, V a29
#define PARAMETERS_31 PARAMETERS_30, V a30
#define PARAMETERS_32 PARAMETERS_31, V a31
#define PARAMETERS_33 PARAMETERS_32, V a32
#define PARAMETERS_34 PARAMETERS_33, V a33
#define PARAMETERS_35 PARAMETERS_34, V a34
#define PARAMETERS_36 PARAMETERS_35, V a35
#define PARAMETERS_37 PARAMETERS_36, V a36
#define PARAMETERS_38 PARAMETERS_37, V a37
#define PARAMETERS_39 PARAMETERS_38, V a38
#define PARAMETERS_40 PARAMETERS_39, V a39
#define PARAMETERS_41 PARAMETERS_40, V a40
#define PARAMETERS_42 PARAMETERS_41, V a41
#define PARAMETERS_43 PARAMETERS_42, V a42
#define PARAMETERS_44 PARAMETERS_43, V a43
#define PARAMETERS_45 PARAMETERS_44, V a44
#define PARAMETERS_46 PARAMETERS_45, V a45
#define PARAMETERS_47 PARAMETERS_46, V a46
#define PARAMETERS_48 PARAMETERS_47, V a47
#define PARAMETERS_49 PARAMETERS_48, V a48
#define PARAMETERS_50 PARAMETERS_49, V a49
#define PARAMETERS_51 PARAMETERS_50, V a50
#define PARAMETERS_52 PARAMETERS_51, V a51
#define PARAMETERS_53 PARAMETERS_52, V a52
#define PARAMETERS_54 PARAMETERS_53, V a53
#define PARAMETERS_55 PARAMETERS_54, V a54
#define PARAMETERS_56 PARAMETERS_55, V a55
#define PARAMETERS_57 PARAMETERS_56, V a56
#define PARAMETERS_58 PARAMETERS_57, V a57
#define PARAMETERS_59 PARAMETERS_58, V a58
#define PARAMETERS_60 PARAMETERS_59, V a59
#define PARAMETERS_61 PARAMETERS_60, V a60
#define PARAMETERS_62 PARAMETERS_61, V a61
#define PARAMETERS_63 PARAMETERS_62, V a62
#define PARAMETERS_64 PARAMETERS_63, V a63
#define GIVEN(I) v[I].w = a##I.w, v[I].k = a##I.k;
#define GIVEN_0
#define GIVEN_1 GIVEN_0 GIVEN(0)
#define GIVEN_2 GIVEN_1 GIVEN(1)
#define GIVEN_3 GIVEN_2 GIVEN(2)
#define GIVEN_4 GIVEN_3 GIVEN(3)
#define GIVEN_5 GIVEN_4 GIVEN(4)
#define GIVEN_6 GIVEN_5 GIVEN(5)
#define GIVEN_7 GIVEN_6 GIVEN(6)
#define GIVEN_8 GIVEN_7 GIVEN(7)
#define GIVEN_9 GIVEN_8 GIVEN(8)
#define GIVEN_10 GIVEN_9 GIVEN(9)
#define GIVEN_11 GIVEN_10 GIVEN(10)
#define GIVEN_12 GIVEN_11 GIVEN(11)
#define GIVEN_13 GIVEN_12 GIVEN(12)
#define GIVEN_14 GIVEN_13 GIVEN(13)
#define GIVEN_15 GIVEN_14 GIVEN(14)
#define GIVEN_16 GIVEN_15 GIVEN(15)
#define GIVEN_17 GIVEN_16 GIVEN(16)
#define GIVEN_18 GIVEN_17 GIVEN(17)
#define GIVEN_19 GIVEN_18 GIVEN(18)
#define GIVEN_20 GIVEN_19 GIVEN(19)
#define GIVEN_21 GIVEN_20 GIVEN(20)
#define GIVEN_22 GIVEN_21 GIVEN(21)
#define GIVEN_23 GIVEN_22 GIVEN(22)
#define GIVEN_24 GIVEN_23 GIVEN(23)
#define GIVEN_25 GIVEN_24 GIVEN(24)
#define GIVEN_26 GIVEN_25 GIVEN(25)
#define GIVEN_27 GIVEN_26 GIVEN(26)
#define GIVEN_28 GIVEN_27 GIVEN(27)
#define GIVEN_29 GIVEN_28 GIVEN(28)
#define GIVEN_30 GIVEN_29 GIVEN(29)
#define GIVEN_31 GIVEN_30 GIVEN(30)
#define GIVEN_32 GIVEN_31 GIVEN(31)
#define GIVEN_33 GIVEN_32 GIVEN(32)
#define GIVEN_34 GIVEN_33 GIVEN(33)
#define GIVEN_35 GIVEN_34 GIVEN(34)
#define GIVEN_36 GIVEN_35 GIVEN(35)
#define GIVEN_37 GIVEN_36 GIVEN(36)
#define GIVEN_38 GIVEN_37 GIVEN(37)
#define GIVEN_39 GIVEN_38 GIVEN(38)
#define GIVEN_40 GIVEN_39 GIVEN(39)
#define GIVEN_41 GIVEN_40 GIVEN(40)
#define GIVEN_42 GIVEN_41 GIVEN(41)
#define GIVEN_43 GIVEN_42 GIVEN(42)
#define GIVEN_44 GIVEN_43 GIVEN(43)
#define GIVEN_45 GIVEN_44 GIVEN(44)
#define GIVEN_46 GIVEN_45 GIVEN(45)
#define GIVEN_47 GIVEN_46 GIVEN(46)
#define GIVEN_48 GIVEN_47 GIVEN(47)
#define GIVEN_49 GIVEN_48 GIVEN(48)
#define GIVEN_50 GIVEN_49 GIVEN(49)
#define GIVEN_51 GIVEN_50 GIVEN(50)
#define GIVEN_52 GIVEN_51 GIVEN(51)
#define GIVEN_53 GIVEN_52 GIVEN(52)
#define GIVEN_54 GIVEN_53 GIVEN(53)
#define GIVEN_55 GIVEN_54 GIVEN(54)
#define GIVEN_56 GIVEN_55 GIVEN(55)
#define GIVEN_57 GIVEN_56 GIVEN(56)
#define GIVEN_58 GIVEN_57 GIVEN(57)
#define GIVEN_59 GIVEN_58 GIVEN(58)
#define GIVEN_60 GIVEN_59 GIVEN(59)
#define GIVEN_61 GIVEN_60 GIVEN(60)
#define GIVEN_62 GIVEN_61 GIVEN(61)
#define GIVEN_63 GIVEN_62 GIVEN(62)
#define GIVEN_64 GIVEN_63 GIVEN(63)

/* the arguments of a call of n - 1 parameters, the last operand being none */
#define GIVES(N, ...) GIVES_##N(__VA_ARGS__)
#define GIVES_1(...)
#define GIVEN_BY(I) (V){ S(sp + I).w, S(sp + I).k }
#define GIVES_2(I, ...) GIVEN_BY(I)
#define GIVES_3(I, ...) GIVEN_BY(I), GIVES_2(__VA_ARGS__)
#define GIVES_4(I, ...) GIVEN_BY(I), GIVES_3(__VA_ARGS__)
#define GIVES_5(I, ...) GIVEN_BY(I), GIVES_4(__VA_ARGS__)
#define GIVES_6(I, ...) GIVEN_BY(I), GIVES_5(__VA_ARGS__)
#define GIVES_7(I, ...) GIVEN_BY(I), GIVES_6(__VA_ARGS__)
#define GIVES_8(I, ...) GIVEN_BY(I), GIVES_7(__VA_ARGS__)
#define GIVES_9(I, ...) GIVEN_BY(I), GIVES_8(__VA_ARGS__)
#define GIVES_10(I, ...) GIVEN_BY(I), GIVES_9(__VA_ARGS__)
#define GIVES_11(I, ...) GIVEN_BY(I), GIVES_10(__VA_ARGS__)
#define GIVES_12(I, ...) GIVEN_BY(I), GIVES_11(__VA_ARGS__)
#define GIVES_13(I, ...) GIVEN_BY(I), GIVES_12(__VA_ARGS__)
#define GIVES_14(I, ...) GIVEN_BY(I), GIVES_13(__VA_ARGS__)
#define GIVES_15(I, ...) GIVEN_BY(I), GIVES_14(__VA_ARGS__)
#define GIVES_16(I, ...) GIVEN_BY(I), GIVES_15(__VA_ARGS__)
#define GIVES_17(I, ...) GIVEN_BY(I), GIVES_16(__VA_ARGS__)
#define GIVES_18(I, ...) GIVEN_BY(I), GIVES_17(__VA_ARGS__)
#define GIVES_19(I, ...) GIVEN_BY(I), GIVES_18(__VA_ARGS__)
#define GIVES_20(I, ...) GIVEN_BY(I), GIVES_19(__VA_ARGS__)
#define GIVES_21(I, ...) GIVEN_BY(I), GIVES_20(__VA_ARGS__)
#define GIVES_22(I, ...) GIVEN_BY(I), GIVES_21(__VA_ARGS__)
#define GIVES_23(I, ...) GIVEN_BY(I), GIVES_22(__VA_ARGS__)
#define GIVES_24(I, ...) GIVEN_BY(I), GIVES_23(__VA_ARGS__)
#define GIVES_25(I, ...) GIVEN_BY(I), GIVES_24(__VA_ARGS__)
#define GIVES_26(I, ...) GIVEN_BY(I), GIVES_25(__VA_ARGS__)
#define GIVES_27(I, ...) GIVEN_BY(I), GIVES_26(__VA_ARGS__)
#define GIVES_28(I, ...) GIVEN_BY(I), GIVES_27(__VA_ARGS__)
#define GIVES_29(I, ...) GIVEN_BY(I), GIVES_28(__VA_ARGS__)
#define GIVES_30(I, ...) GIVEN_BY(I), GIVES_29(__VA_ARGS__)
#define GIVES_31(I, ...) GIVEN_BY(I), GIVES_30(__VA_ARGS__)
#define GIVES_32(I, ...) GIVEN_BY(I), GIVES_31(__VA_ARGS__)
#define GIVES_33(I, ...) GIVEN_BY(I), GIVES_32(__VA_ARGS__)
#define GIVES_34(I, ...) GIVEN_BY(I), GIVES_33(__VA_ARGS__)
#define GIVES_35(I, ...) GIVEN_BY(I), GIVES_34(__VA_ARGS__)
#define GIVES_36(I, ...) GIVEN_BY(I), GIVES_35(__VA_ARGS__)
#define GIVES_37(I, ...) GIVEN_BY(I), GIVES_36(__VA_ARGS__)
#define GIVES_38(I, ...) GIVEN_BY(I), GIVES_37(__VA_ARGS__)
#define GIVES_39(I, ...) GIVEN_BY(I), GIVES_38(__VA_ARGS__)
#define GIVES_40(I, ...) GIVEN_BY(I), GIVES_39(__VA_ARGS__)
#define GIVES_41(I, ...) GIVEN_BY(I), GIVES_40(__VA_ARGS__)
#define GIVES_42(I, ...) GIVEN_BY(I), GIVES_41(__VA_ARGS__)
#define GIVES_43(I, ...) GIVEN_BY(I), GIVES_42(__VA_ARGS__)
#define GIVES_44(I, ...) GIVEN_BY(I), GIVES_43(__VA_ARGS__)
#define GIVES_45(I, ...) GIVEN_BY(I), GIVES_44(__VA_ARGS__)
#define GIVES_46(I, ...) GIVEN_BY(I), GIVES_45(__VA_ARGS__)
#define GIVES_47(I, ...) GIVEN_BY(I), GIVES_46(__VA_ARGS__)
#define GIVES_48(I, ...) GIVEN_BY(I), GIVES_47(__VA_ARGS__)
#define GIVES_49(I, ...) GIVEN_BY(I), GIVES_48(__VA_ARGS__)
#define GIVES_50(I, ...) GIVEN_BY(I), GIVES_49(__VA_ARGS__)
#define GIVES_51(I, ...) GIVEN_BY(I), GIVES_50(__VA_ARGS__)
#define GIVES_52(I, ...) GIVEN_BY(I), GIVES_51(__VA_ARGS__)
#define GIVES_53(I, ...) GIVEN_BY(I), GIVES_52(__VA_ARGS__)
#define GIVES_54(I, ...) GIVEN_BY(I), GIVES_53(__VA_ARGS__)
#define GIVES_55(I, ...) GIVEN_BY(I), GIVES_54(__VA_ARGS__)
#define GIVES_56(I, ...) GIVEN_BY(I), GIVES_55(__VA_ARGS__)
#define GIVES_57(I, ...) GIVEN_BY(I), GIVES_56(__VA_ARGS__)
#define GIVES_58(I, ...) GIVEN_BY(I), GIVES_57(__VA_ARGS__)
#define GIVES_59(I, ...) GIVEN_BY(I), GIVES_58(__VA_ARGS__)
#define GIVES_60(I, ...) GIVEN_BY(I), GIVES_59(__VA_ARGS__)
#define GIVES_61(I, ...) GIVEN_BY(I), GIVES_60(__VA_ARGS__)
#define GIVES_62(I, ...) GIVEN_BY(I), GIVES_61(__VA_ARGS__)
#define GIVES_63(I, ...) GIVEN_BY(I), GIVES_62(__VA_ARGS__)
#define GIVES_64(I, ...) GIVEN_BY(I), GIVES_63(__VA_ARGS__)
#define GIVES_65(I, ...) GIVEN_BY(I), GIVES_64(__VA_ARGS__)

"#;
