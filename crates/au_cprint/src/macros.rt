//! Functions and instructions as macros.

/// Functions and instructions as macros.
pub const MACROS: &[u8] = br#"/* ---- functions */

/* Operands and slots are arrays of a frame, whose indices are constants in the end, so that compilers put
   them into registers. What this takes grows faster than a function does. So each instruction that stands
   more than so many lines behind the begin of its function is far from it, and is a call of a function. Then
   the slots are in memory, and the operands of such a function are in a pile apart. Without optimization, and
   with the address sanitizer, all instructions are far. What compilers do at the end of each block grows with
   the labels of a function: so an instruction is an expression where it can be, and else has few blocks. */
#define MOST_OPERANDS 6528
#ifndef LONG_FROM
#if defined(__OPTIMIZE__) && !WATCHED
#define LONG_FROM 400
#else
#define LONG_FROM 0
#endif
#endif
#define IS_FAR (__LINE__ - first_ > LONG_FROM)
#if LONG_FROM > 0
#define FORM(N) \
  const int long_ = length_##N > LONG_FROM; \
  V near_[MOST_OPERANDS]; \
  V *const s = long_ ? long_begin() : near_;
#else
#define FORM(N) \
  enum { long_ = 1 }; \
  V *const s = long_begin();
#endif

#define TEXT(N, LENGTH, WHAT) __attribute__((unused)) static const X text_##N = { LENGTH, WHAT };
#define TYPE(N, WHAT, HOME, LINEAR)
#define DECLARE(N) \
  __attribute__((unused)) static const int length_##N; \
  __attribute__((unused)) static V fn_##N();
#define FUNCTION(N, PARAMS, SIZE) \
  enum { first_##N = __LINE__ }; \
  static V fn_##N(PARAMETERS_##PARAMS) { \
    enum { SLOTS = SIZE, first_ = first_##N }; \
    V v[SLOTS + 1] = { { 0, 0 } }; \
    V r_ = { 0, 0 }; \
    int sp = 0; \
    SPARE \
    FORM(N) \
    if (UNLIKELY((uintptr_t)__builtin_frame_address(0) < stack_end)) memory(); \
    GIVEN_##PARAMS

/* The slots end where the frame does; what is behind this is out of reach. Where there are more than so many,
   compilers have them in memory, and loops go over them. */
#define MOST_SPREAD 16
#define AT(I) v[(I) < SLOTS ? (I) : 0]
#define LET(I) if (I < SLOTS) LETS_GO(AT(I));
#define END(N) \
  out_: \
    if (IS_FAR) { \
      let_all(v, SLOTS); \
    } else { \
      LET(0) LET(1) LET(2) LET(3) LET(4) LET(5) LET(6) LET(7) \
      LET(8) LET(9) LET(10) LET(11) LET(12) LET(13) LET(14) LET(15) \
      if (SLOTS > MOST_SPREAD) let_all(&AT(MOST_SPREAD), SLOTS - MOST_SPREAD); \
    } \
    if (long_) top = s; \
    return r_; \
  } \
  __attribute__((unused)) static const int length_##N = __LINE__ - first_##N;
#define ROOT_0
#define ROOT_1 (V){ 0, 0 }
#define ENTRY(N, ROOT) \
  static void *begin(void *x) { \
    V r; \
    stack_end = (uintptr_t)__builtin_frame_address(0) - stack_bytes + STACK_MARGIN; \
    r = fn_##N(ROOT_##ROOT); \
    leave((int)(r.w >> 1)); \
    return x; \
  } \
  int main(void) { \
    signal(SIGPIPE, SIG_IGN); \
    start(begin); \
    return 7; \
  }

/* ---- what instructions do, as expressions on operands S(0), S(1), .. of which there are sp */

#define S(I) s[I]
#define SETS(HOLDER, WHAT, KIND) ((HOLDER).w = (WHAT), (HOLDER).k = (KIND))
#define LETS_GO(HOLDER) ((HOLDER).k == DATA ? drop(CELL((HOLDER).w)) : (void)0)
/* what is under way in an expression: a word and its kind, a place and a value */
#define SPARE \
  __attribute__((unused)) W w_, k_; \
  __attribute__((unused)) V *q_; \
  __attribute__((unused)) V t_;
#define PUSHES(WHAT, KIND) SETS(S(sp), WHAT, KIND)
#define COPIES(FROM) \
  (w_ = (FROM).w, k_ = (FROM).k, k_ == DATA ? (void)CELL(w_)->shares++ : (void)0, PUSHES(w_, k_))
#define MOVES(HOLDER) (PUSHES((HOLDER).w, (HOLDER).k), (HOLDER).k = PLAIN)
#define STORES(HOLDER) (LETS_GO(HOLDER), SETS(HOLDER, S(sp - 1).w, S(sp - 1).k))
#define DROPS LETS_GO(S(sp - 1))

/* the integer types: C's type, whether it has a sign, the least and the greatest */
#define T_NAT8 uint8_t
#define T_NAT16 uint16_t
#define T_NAT32 uint32_t
#define T_NAT64 uint64_t
#define T_INT8 int8_t
#define T_INT16 int16_t
#define T_INT32 int32_t
#define T_INT64 int64_t
#define T_INDEX uint64_t
#define T_BOOL uint64_t
#define SIGN_NAT8 PLAIN
#define SIGN_NAT16 PLAIN
#define SIGN_NAT32 PLAIN
#define SIGN_NAT64 PLAIN
#define SIGN_INT8 SIGNED
#define SIGN_INT16 SIGNED
#define SIGN_INT32 SIGNED
#define SIGN_INT64 SIGNED
#define SIGN_INDEX PLAIN
#define SIGN_BOOL PLAIN
#define LEAST_NAT8 0
#define LEAST_NAT16 0
#define LEAST_NAT32 0
#define LEAST_NAT64 0
#define LEAST_INT8 INT8_MIN
#define LEAST_INT16 INT16_MIN
#define LEAST_INT32 INT32_MIN
#define LEAST_INT64 INT64_MIN
#define LEAST_INDEX 0
#define MOST_NAT8 UINT8_MAX
#define MOST_NAT16 UINT16_MAX
#define MOST_NAT32 UINT32_MAX
#define MOST_NAT64 UINT64_MAX
#define MOST_INT8 INT8_MAX
#define MOST_INT16 INT16_MAX
#define MOST_INT32 INT32_MAX
#define MOST_INT64 INT64_MAX
#define MOST_INDEX UINT64_MAX

#define LEFT(KIND) ((T_##KIND)S(sp - 2).w)
#define RIGHT(KIND) ((T_##KIND)S(sp - 1).w)
#define OVER_ADD(KIND) __builtin_add_overflow(LEFT(KIND), RIGHT(KIND), &c_)
#define OVER_SUBTRACT(KIND) __builtin_sub_overflow(LEFT(KIND), RIGHT(KIND), &c_)
#define OVER_MULTIPLY(KIND) __builtin_mul_overflow(LEFT(KIND), RIGHT(KIND), &c_)
#define OVER_DIVIDE(KIND) \
  (cannot_divide((W)LEFT(KIND), (W)RIGHT(KIND), SIGN_##KIND, LEAST_##KIND) \
   || (c_ = (T_##KIND)(LEFT(KIND) / RIGHT(KIND)), 0))
#define COMPUTES(OP, KIND) \
  (UNLIKELY(OVER_##OP(KIND)) ? arithmetic() : (void)0, SETS(S(sp - 2), (W)c_, SIGN_##KIND))
#define WITH_ADD +
#define WITH_SUBTRACT -
#define WITH_MULTIPLY *
#define WRAPS(OP, KIND, FIRST, SECOND) \
  SETS(S(sp - 2), (W)(T_##KIND)(S(sp - 2 + FIRST).w WITH_##OP S(sp - 2 + SECOND).w), SIGN_##KIND)
#define IS_EQUAL ==
#define IS_NOTEQUAL !=
#define IS_LESS <
#define IS_LESSEQUAL <=
#define IS_GREATER >
#define IS_GREATEREQUAL >=
#define COMPARES(OP, KIND) SETS(S(sp - 2), LEFT(KIND) IS_##OP RIGHT(KIND), PLAIN)
#define NEGATES (S(sp - 1).w ^= 1)
/* the Option of a word */
HELPER V option(int is_there, W what, W kind) {
  V v = { 1, PLAIN };
  if (is_there) {
    C *const c = cell(1, 1);
    SETS(c->f[0], what, kind);
    SETS(v, WORD(c), DATA);
  }
  return v;
}
#define CONVERTS(LEAST, MOST, SIGN) \
  (t_ = option(fits(S(sp - 1).w, S(sp - 1).k, LEAST, MOST), S(sp - 1).w, SIGN), SETS(S(sp - 1), t_.w, t_.k))

/* The fields of a value go to slots: those of a cell, which is gone then, or references to them. */
typedef struct {
  C *c;
  const V *f;
  W n, tag, alone;
} O;
/* the cell, or none; the fields and how many they are; the case; and whether nothing else holds the cell */
INLINED O opened(W word, W kind) {
  O o = { 0, lent, 0, 0, 1 };
  if (kind == DATA) {
    o.c = CELL(word);
    o.f = o.c->f;
    o.n = o.c->size;
    o.tag = o.c->tag;
    o.alone = o.c->shares == 1;
    if (UNLIKELY(!o.alone)) share_fields(o.c);
  } else if (kind == PLAIN) {
    o.tag = word >> 1;
  } else {
    o.tag = lend(word, kind);
    o.n = lent_size;
  }
  return o;
}
INLINED void closed(O o) {
  if (o.c) {
    if (LIKELY(o.alone)) put_back(o.c);
    else drop(o.c);
  }
}
#define HELD(SLOT, I) \
  ((SLOT) + I < SLOTS && o_.n > I \
     ? (void)(LETS_GO(AT((SLOT) + I)), SETS(AT((SLOT) + I), o_.f[I].w, o_.f[I].k)) \
     : (void)0)
#define HELD_BEHIND(SLOT, I) \
  ((SLOT) + I < SLOTS && o_.n > I ? spread(&AT((SLOT) + I), o_.f + I, o_.n - I) : (void)0)
#define SPREAD(SLOT) \
  (o_ = opened(S(sp - 1).w, S(sp - 1).k), \
   SLOTS > MOST_SPREAD \
     ? spread(&AT(SLOT), o_.f, o_.n) \
     : (HELD(SLOT, 0), HELD(SLOT, 1), HELD(SLOT, 2), HELD(SLOT, 3), HELD(SLOT, 4), HELD(SLOT, 5), \
        HELD(SLOT, 6), HELD(SLOT, 7), HELD_BEHIND(SLOT, 8)), \
   closed(o_))

/* shipped calls */
#define UNIT SETS(S(sp - 1), 0, PLAIN);
#define HELD_BY(I) BUFFER(PLACE(S(I).w)->w)
#define DO_PRINT_INT(...) { print_int(S(sp - 1).w, S(sp - 1).k); UNIT }
#define DO_PRINTLN_INT(...) { print_int(S(sp - 1).w, S(sp - 1).k); put_byte('\n'); UNIT }
#define DO_PRINT_BOOL(...) { print_bool(S(sp - 1).w); UNIT }
#define DO_PRINTLN_BOOL(...) { print_bool(S(sp - 1).w); put_byte('\n'); UNIT }
#define DO_PRINT_TEXT(...) { print_text(S(sp - 1).w); UNIT }
#define DO_PRINTLN_TEXT(...) { print_text(S(sp - 1).w); put_byte('\n'); UNIT }
#define DO_SURRENDER(...) { UNIT }
#define DO_RELEASE(...) { UNIT }
#define DO_ABORT(...) { abort_with(S(sp - 1).w); }
#define DO_SPAN_LENGTH(...) { SETS(S(sp - 1), BYTES(S(sp - 1).w)->length, PLAIN); }
#define DO_SWAP(P, Q, ...) { \
  V *const at_ = PLACE(S(sp - 2 + P).w); \
  const W x_ = S(sp - 2 + Q).w, y_ = S(sp - 2 + Q).k; \
  sp--; \
  SETS(S(sp - 1), at_->w, at_->k); \
  SETS(*at_, x_, y_); }
#define DO_MAKE_BOX(...) { \
  C *const c_ = cell(1, 0); \
  SETS(c_->f[0], S(sp - 1).w, S(sp - 1).k); \
  SETS(S(sp - 1), WORD(c_), PLAIN); }
#define DO_UNBOX(...) { \
  C *const c_ = CELL(S(sp - 1).w); \
  SETS(S(sp - 1), c_->f[0].w, c_->f[0].k); \
  put_back(c_); }
#define DO_BOX_GET(...) { SETS(S(sp - 1), WORD(&CELL(PLACE(S(sp - 1).w)->w)->f[0]), READS); }
#define DO_BOX_GET_MUT(...) { SETS(S(sp - 1), WORD(&CELL(PLACE(S(sp - 1).w)->w)->f[0]), WRITES); }
#define DO_MAKE_BUFFER(...) { PUSHES(new_buffer(), PLAIN); sp++; }
#define DO_DESTROY_EMPTY(...) { end_buffer(BUFFER(S(sp - 1).w)); UNIT }
#define DO_LENGTH(...) { SETS(S(sp - 1), HELD_BY(sp - 1)->length, PLAIN); }
#define DO_INSERT_BACK(P, Q, ...) { \
  insert_back(HELD_BY(sp - 2 + P), S(sp - 2 + Q).w, S(sp - 2 + Q).k); \
  sp--; \
  UNIT }
#define DO_REMOVE_BACK(...) { \
  B *const b_ = HELD_BY(sp - 1); \
  const W i_ = last_of(b_); \
  SETS(S(sp - 1), b_->words[i_], kind_at(b_, i_)); }
#define DO_NTH(P, Q, ...) { \
  const B *const b_ = HELD_BY(sp - 2 + P); \
  const W i_ = place_in(b_, S(sp - 2 + Q).w), x_ = b_->words[i_], y_ = kind_at(b_, i_); \
  sp--; \
  if (y_ == DATA) CELL(x_)->shares++; \
  SETS(S(sp - 1), x_, y_); }
#define DO_REPLACE_NTH(P, Q, R, ...) { \
  B *const b_ = HELD_BY(sp - 3 + P); \
  const W i_ = place_in(b_, S(sp - 3 + Q).w), x_ = b_->words[i_], y_ = kind_at(b_, i_); \
  put_at(b_, i_, S(sp - 3 + R).w, S(sp - 3 + R).k); \
  sp -= 2; \
  SETS(S(sp - 1), x_, y_); }
#define DO_ACQUIRE(...) { UNIT }
#define DO_READ_BYTE(...) { \
  const int b_ = read_byte(); \
  const V x_ = option(b_ >= 0, (W)b_, PLAIN); \
  SETS(S(sp - 1), x_.w, x_.k); }
#define DO_WRITE_BYTE(P, Q, ...) { put_byte((unsigned char)S(sp - 2 + Q).w); sp--; UNIT }

/* ---- the same as functions, for instructions that are far; s is the place behind the operands */

static V *top, *top_end;

/* A function with operands in the pile begins; the first one gets the pile, as large as there is. */
FAR_AWAY V *long_begin(void) {
  size_t size;
  for (size = (size_t)1 << (WATCHED ? 20 : 24); !top && size > MOST_OPERANDS; size /= 2) {
    top = malloc(size * sizeof(V));
    top_end = top + size;
  }
  if (!top || top_end - top < MOST_OPERANDS) memory();
  return top;
}

#define FAR_(NAME, PARAMETERS, ...) \
  FAR_AWAY void far_##NAME PARAMETERS { \
    int sp = 0; \
    SPARE \
    __VA_ARGS__ \
    (void)sp; \
  }
FAR_(push, (V *s, W word, W kind), PUSHES(word, kind);)
FAR_(look, (V *s, const V *from), COPIES(*from);)
FAR_(move, (V *s, V *slot), MOVES(*slot);)
FAR_(store, (V *s, V *to), STORES(*to);)
FAR_(drop, (V *s), DROPS;)
FAR_(not, (V *s), NEGATES;)
FAR_(convert, (V *s, int64_t least, W most, W sign), CONVERTS(least, most, sign);)
FAR_(make, (V *s, uint32_t tag, const uint32_t *order, uint32_t size),
     C *const c = cell(size, tag); uint32_t i; sp -= (int)size;
     for (i = 0; i < size; i++) SETS(c->f[i], S(sp + (int)order[i]).w, S(sp + (int)order[i]).k);
     PUSHES(WORD(c), DATA);)
FAR_(look_part, (V *s, const V *slot, const uint32_t *path, int size), q_ = part(slot->w, path, size);
     COPIES(*q_);)
FAR_(set_part, (V *s, V *slot, const uint32_t *path, int size), slot->w = own(slot->w);
     q_ = own_part(slot->w, path, size); STORES(*q_);)
FAR_(read, (V *s, const V *slot, const uint32_t *path, int size), q_ = lent_part(slot->w, path, size);
     COPIES(*q_);)
FAR_(put, (V *s, const V *slot, const uint32_t *path, int size), q_ = lent_own_part(slot->w, path, size);
     STORES(*q_);)
FAR_(part, (V *s, const V *slot, const uint32_t *path, int size),
     PUSHES(WORD(lent_part(slot->w, path, size)), slot->k);)
FAR_(deref, (V *s), q_ = PLACE(S(sp - 1).w); sp--; COPIES(*q_);)

/* Numbers are computed at 64 bits, then looked at or cut. */
#define SIGN_W PLAIN
#define LEAST_W 0
#define T_W W
#define FAR_EXACT(OP) \
  FAR_AWAY void far_##OP(V *s, W sign, int64_t least, W most) { \
    const int sp = 0; \
    if (sign == SIGNED) { \
      int64_t c_; \
      COMPUTES(OP, INT64); \
    } else { \
      W c_; \
      COMPUTES(OP, W); \
    } \
    if (!fits(S(sp - 2).w, sign, least, most)) arithmetic(); \
  }
FAR_EXACT(ADD)
FAR_EXACT(SUBTRACT)
FAR_EXACT(MULTIPLY)
FAR_EXACT(DIVIDE)
#define FAR_WRAP(OP) \
  FAR_(WRAP_##OP, (V *s, int first, int second, W sign, int bits), \
       W sign_bit; \
       WRAPS(OP, W, first, second); \
       sign_bit = sign == SIGNED ? (W)1 << (bits - 1) : 0; \
       SETS(S(sp - 2), ((S(sp - 2).w & (~(W)0 >> (64 - bits))) ^ sign_bit) - sign_bit, sign);)
FAR_WRAP(ADD)
FAR_WRAP(SUBTRACT)
FAR_WRAP(MULTIPLY)
#define FAR_COMPARE(OP) \
  FAR_AWAY void far_##OP(V *s, W sign) { \
    const int sp = 0; \
    if (sign == SIGNED) COMPARES(OP, INT64); \
    else COMPARES(OP, W); \
  }
FAR_COMPARE(EQUAL)
FAR_COMPARE(NOTEQUAL)
FAR_COMPARE(LESS)
FAR_COMPARE(LESSEQUAL)
FAR_COMPARE(GREATER)
FAR_COMPARE(GREATEREQUAL)

FAR_AWAY int far_above(const V *a, const V *b) { return is_above(a->w, b->w, a->k); }
FAR_AWAY int far_step(V *a, const V *b) {
  const int is_below = is_above(b->w, a->w, a->k);
  if (is_below) a->w++;
  return is_below;
}
FAR_AWAY void far_bind(V *to, W word, W kind) {
  LETS_GO(*to);
  SETS(*to, word, kind);
}
FAR_AWAY void far_again(V *to, const V *from) {
  LETS_GO(*to);
  SETS(*to, from->w, from->k);
}
FAR_AWAY W far_open(V *s, V *to) {
  const O o = opened(s[-1].w, s[-1].k);
  spread(to, o.f, o.n);
  closed(o);
  return o.tag;
}

/* shipped calls; behind the operands stands an order, for where there is none */
#define FAR_CALL(NAME) \
  FAR_(NAME, (V *s, int first, int second, int third), (void)first; (void)second; (void)third; \
       DO_##NAME(first, second, third, ))
FAR_CALL(PRINT_INT)
FAR_CALL(PRINTLN_INT)
FAR_CALL(PRINT_BOOL)
FAR_CALL(PRINTLN_BOOL)
FAR_CALL(PRINT_TEXT)
FAR_CALL(PRINTLN_TEXT)
FAR_CALL(SURRENDER)
FAR_CALL(RELEASE)
FAR_CALL(ABORT)
FAR_CALL(SPAN_LENGTH)
FAR_CALL(SWAP)
FAR_CALL(MAKE_BOX)
FAR_CALL(UNBOX)
FAR_CALL(BOX_GET)
FAR_CALL(BOX_GET_MUT)
FAR_CALL(MAKE_BUFFER)
FAR_CALL(DESTROY_EMPTY)
FAR_CALL(LENGTH)
FAR_CALL(INSERT_BACK)
FAR_CALL(REMOVE_BACK)
FAR_CALL(NTH)
FAR_CALL(REPLACE_NTH)
FAR_CALL(ACQUIRE)
FAR_CALL(READ_BYTE)
FAR_CALL(WRITE_BYTE)

/* what a shipped call is given as a function, by how many operands more there are then, and its order, or
   nothing where what it makes has a type */
#define BY_ORDER(NAME, MORE, P, Q, R, ...) far_##NAME(&s[sp], P, Q, R), sp += MORE
#define BY_TYPE(NAME, MORE, ...) far_##NAME(&s[sp], 0, 0, 0), sp += MORE
#define FAR_PRINT_INT(...) BY_ORDER(PRINT_INT, 0, __VA_ARGS__)
#define FAR_PRINTLN_INT(...) BY_ORDER(PRINTLN_INT, 0, __VA_ARGS__)
#define FAR_PRINT_BOOL(...) BY_ORDER(PRINT_BOOL, 0, __VA_ARGS__)
#define FAR_PRINTLN_BOOL(...) BY_ORDER(PRINTLN_BOOL, 0, __VA_ARGS__)
#define FAR_PRINT_TEXT(...) BY_ORDER(PRINT_TEXT, 0, __VA_ARGS__)
#define FAR_PRINTLN_TEXT(...) BY_ORDER(PRINTLN_TEXT, 0, __VA_ARGS__)
#define FAR_SURRENDER(...) BY_ORDER(SURRENDER, 0, __VA_ARGS__)
#define FAR_RELEASE(...) BY_ORDER(RELEASE, 0, __VA_ARGS__)
#define FAR_ABORT(...) BY_ORDER(ABORT, 0, __VA_ARGS__)
#define FAR_SPAN_LENGTH(...) BY_ORDER(SPAN_LENGTH, 0, __VA_ARGS__)
#define FAR_SWAP(...) BY_ORDER(SWAP, -1, __VA_ARGS__)
#define FAR_MAKE_BOX(...) BY_TYPE(MAKE_BOX, 0, __VA_ARGS__)
#define FAR_UNBOX(...) BY_ORDER(UNBOX, 0, __VA_ARGS__)
#define FAR_BOX_GET(...) BY_ORDER(BOX_GET, 0, __VA_ARGS__)
#define FAR_BOX_GET_MUT(...) BY_ORDER(BOX_GET_MUT, 0, __VA_ARGS__)
#define FAR_MAKE_BUFFER(...) BY_TYPE(MAKE_BUFFER, 1, __VA_ARGS__)
#define FAR_DESTROY_EMPTY(...) BY_ORDER(DESTROY_EMPTY, 0, __VA_ARGS__)
#define FAR_LENGTH(...) BY_ORDER(LENGTH, 0, __VA_ARGS__)
#define FAR_INSERT_BACK(...) BY_ORDER(INSERT_BACK, -1, __VA_ARGS__)
#define FAR_REMOVE_BACK(...) BY_ORDER(REMOVE_BACK, 0, __VA_ARGS__)
#define FAR_NTH(...) BY_ORDER(NTH, -1, __VA_ARGS__)
#define FAR_REPLACE_NTH(...) BY_ORDER(REPLACE_NTH, -2, __VA_ARGS__)
#define FAR_ACQUIRE(...) BY_TYPE(ACQUIRE, 0, __VA_ARGS__)
#define FAR_READ_BYTE(...) BY_ORDER(READ_BYTE, 0, __VA_ARGS__)
#define FAR_WRITE_BYTE(...) BY_ORDER(WRITE_BYTE, -1, __VA_ARGS__)

/* ---- instructions */

/* an instruction that is far, and one that isn't */
#define EITHER(FAR, ...) (IS_FAR ? (void)(FAR) : (void)(__VA_ARGS__))

/* constants; a number below 0 is the minus sign and its digits */
#define PUSHED(WHAT, KIND) EITHER(far_push(&s[sp], WHAT, KIND), PUSHES(WHAT, KIND)), sp++
#define PUSH(KIND, NUMBER) PUSHED((W)(NUMBER##ULL), SIGN_##KIND)
#define PUSHBOOL(TRUTH) PUSHED(TRUTH, PLAIN)
#define PUSHUNIT() PUSHED(0, PLAIN)
#define PUSHTEXT(N) PUSHED(WORD(&text_##N), PLAIN)

/* slots, with a path or without one */
#define PICK(FRONT, HOW, ...) PICKED(FRONT, HOW, __VA_ARGS__)
#define PICKED(FRONT, HOW, ...) FRONT##HOW(__VA_ARGS__)
#define PATH(...) \
  static const uint32_t p_[] = { __VA_ARGS__ }; \
  enum { n_ = (int)(sizeof p_ / sizeof *p_) };
#define LOOK(...) PICK(LOOK_, ANY(__VA_ARGS__), __VA_ARGS__)
#define LOOK_ONE(SLOT) EITHER(far_look(&s[sp], &v[SLOT]), COPIES(v[SLOT])), sp++
#define LOOK_MORE(SLOT, ...) { \
  PATH(__VA_ARGS__) \
  EITHER(far_look_part(&s[sp], &v[SLOT], p_, n_), q_ = part(v[SLOT].w, p_, n_), COPIES(*q_)), sp++; }
#define MOVE(SLOT) EITHER(far_move(&s[sp], &v[SLOT]), MOVES(v[SLOT])), sp++
#define STORE(SLOT) EITHER(far_store(&s[sp], &v[SLOT]), STORES(v[SLOT])), sp--
#define SET(...) PICK(SET_, ANY(__VA_ARGS__), __VA_ARGS__)
#define SET_ONE(SLOT) STORE(SLOT)
#define SET_MORE(SLOT, ...) { \
  PATH(__VA_ARGS__) \
  EITHER(far_set_part(&s[sp], &v[SLOT], p_, n_), \
         v[SLOT].w = own(v[SLOT].w), q_ = own_part(v[SLOT].w, p_, n_), STORES(*q_)), sp--; }
#define DROP() EITHER(far_drop(&s[sp]), DROPS), sp--

/* numbers and truth values */
#define ARITH(OP, KIND) { \
  T_##KIND c_; \
  EITHER(far_##OP(&s[sp], SIGN_##KIND, LEAST_##KIND, MOST_##KIND), COMPUTES(OP, KIND)), sp--; }
#define WRAP(OP, ...) WRAP_(OP, __VA_ARGS__, 0, 1, )
#define WRAP_(OP, KIND, FIRST, SECOND, ...) \
  EITHER(far_WRAP_##OP(&s[sp], FIRST, SECOND, SIGN_##KIND, 8 * (int)sizeof(T_##KIND)), \
         WRAPS(OP, KIND, FIRST, SECOND)), sp--
#define COMPARE(OP, KIND) EITHER(far_##OP(&s[sp], SIGN_##KIND), COMPARES(OP, KIND)), sp--
#define NOT() EITHER(far_not(&s[sp]), NEGATES)
#define CONVERT(KIND) \
  EITHER(far_convert(&s[sp], LEAST_##KIND, MOST_##KIND, SIGN_##KIND), \
         CONVERTS(LEAST_##KIND, MOST_##KIND, SIGN_##KIND))

/* labels */
#define JUMP(LABEL) goto LABEL
#define JUMPNOT(LABEL) sp--; if (!S(sp).w) goto LABEL
#define FORTEST(COUNTER, LAST, LABEL) \
  if (IS_FAR ? far_above(&v[COUNTER], &v[LAST]) : is_above(v[COUNTER].w, v[LAST].w, v[COUNTER].k)) \
    goto LABEL
#define FORSTEP(COUNTER, LAST, LABEL) \
  if (IS_FAR \
        ? far_step(&v[COUNTER], &v[LAST]) \
        : is_above(v[LAST].w, v[COUNTER].w, v[COUNTER].k) && (v[COUNTER].w++, 1)) \
    goto LABEL

/* records and unions */
#define FIELD(I, FROM) SETS(c_->f[I], S(sp + FROM).w, S(sp + FROM).k),
#define FIELD_FROM(I, FROM) FROM,
#define MAKE(T, TAG, ...) PICK(MAKE_, ANY(__VA_ARGS__), TAG, __VA_ARGS__)
#define MAKE_ONE(TAG, HOME) PUSHED(2 * TAG + 1, PLAIN)
#define MAKE_MORE(TAG, ...) MAKE_N(COUNT(__VA_ARGS__), TAG, __VA_ARGS__)
#define MAKE_N(N, TAG, ...) { \
  static const uint32_t p_[] = { EACH(N, FIELD_FROM, __VA_ARGS__) }; \
  C *c_; \
  EITHER(far_make(&s[sp], TAG, p_, N - 1), \
         sp -= N - 1, c_ = cell(N - 1, TAG), EACH(N, FIELD, __VA_ARGS__) PUSHES(WORD(c_), DATA), \
         sp += N - 1); \
  sp -= N - 2; }
#define TAKE(SLOT) { \
  O o_; \
  EITHER(far_open(&s[sp], &AT(SLOT)), SPREAD(SLOT)), sp--; }
#define ARM(I, LABEL) case I: goto LABEL;
#define CASE(...) CASE_(__VA_ARGS__, )
#define CASE_(SLOT, ...) CASE_N(COUNT(__VA_ARGS__), SLOT, __VA_ARGS__)
#define CASE_N(N, SLOT, ...) { \
  O o_; \
  EITHER(o_.tag = far_open(&s[sp], &AT(SLOT)), SPREAD(SLOT)), sp--; \
  switch (o_.tag) { \
    EACH(N, ARM, __VA_ARGS__) \
    default: quit(2); \
  } }

/* calls */
#define CALL(...) CALL_(__VA_ARGS__, )
#define CALL_(N, ...) CALL_N(COUNT(__VA_ARGS__), N, __VA_ARGS__)
#define CALL_N(SIZE, N, ...) \
  sp -= SIZE - 1; \
  long_ ? (void)(top = &s[sp]) : (void)0; \
  t_ = fn_##N(GIVES(SIZE, __VA_ARGS__)); \
  PUSHED(t_.w, t_.k)
#define RETURN() sp--; SETS(r_, S(sp).w, S(sp).k); goto out_

/* references; a borrow that is closed leaves nothing to do */
#define MODE_READ READS
#define MODE_WRITE WRITES
#define READ(...) PICK(READ_, ANY(__VA_ARGS__), __VA_ARGS__)
#define READ_ONE(SLOT) EITHER(far_read(&s[sp], &v[SLOT], 0, 0), q_ = PLACE(v[SLOT].w), COPIES(*q_)), sp++
#define READ_MORE(SLOT, ...) { \
  PATH(__VA_ARGS__) \
  EITHER(far_read(&s[sp], &v[SLOT], p_, n_), q_ = lent_part(v[SLOT].w, p_, n_), COPIES(*q_)), sp++; }
#define PUT(...) PICK(PUT_, ANY(__VA_ARGS__), __VA_ARGS__)
#define PUT_ONE(SLOT) EITHER(far_put(&s[sp], &v[SLOT], 0, 0), q_ = PLACE(v[SLOT].w), STORES(*q_)), sp--
#define PUT_MORE(SLOT, ...) { \
  PATH(__VA_ARGS__) \
  EITHER(far_put(&s[sp], &v[SLOT], p_, n_), q_ = lent_own_part(v[SLOT].w, p_, n_), STORES(*q_)), sp--; }
#define DEREF() EITHER(far_deref(&s[sp]), q_ = PLACE(S(sp - 1).w), sp--, COPIES(*q_), sp++)
#define OPEN(SLOT, MODE) PUSHED(WORD(&v[SLOT]), MODE_##MODE)
#define AGAIN(SLOT) EITHER(far_look(&s[sp], &v[SLOT]), PUSHES(v[SLOT].w, v[SLOT].k)), sp++
#define PART(...) PICK(PART_, ANY(__VA_ARGS__), __VA_ARGS__)
#define PART_ONE(SLOT) AGAIN(SLOT)
#define PART_MORE(SLOT, ...) { \
  PATH(__VA_ARGS__) \
  EITHER(far_part(&s[sp], &v[SLOT], p_, n_), PUSHES(WORD(lent_part(v[SLOT].w, p_, n_)), v[SLOT].k)), sp++; }
#define BIND(FROM, INTO, MODE) BIND_##MODE(FROM, INTO)
#define BIND_READ(FROM, INTO) BOUND(INTO, WORD(&v[FROM]), READS)
#define BIND_WRITE(FROM, INTO) BOUND(INTO, WORD(&v[FROM]), WRITES)
#define BIND_AGAIN(FROM, INTO) \
  EITHER(far_again(&v[INTO], &v[FROM]), LETS_GO(v[INTO]), SETS(v[INTO], v[FROM].w, v[FROM].k))
#define BOUND(INTO, WHAT, KIND) \
  EITHER(far_bind(&v[INTO], WHAT, KIND), LETS_GO(v[INTO]), SETS(v[INTO], WHAT, KIND))
#define CLOSE(SIZE) (void)0

#define PRIM(...) PRIM_(__VA_ARGS__, 0, 1, 2, )
#define PRIM_(NAME, ...) if (IS_FAR) FAR_##NAME(__VA_ARGS__); else DO_##NAME(__VA_ARGS__)
/* code */
"#;
